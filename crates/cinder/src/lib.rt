// The calls that firmware makes from C: the hub's, and the display's. include/cinder.h declares them.
// Numbers go into their fields by `as`: Rust has no From<usize> for u64, and one way serves every field.
#![tactic(auto)]

mod hub_call;
mod line_call;
mod list_call;
mod packet_call;
mod setting_call;
mod stream_call;
mod text_call;
mod write_call;

pub use hub_call::{
    ValueResult, cinder_hub_detach, cinder_hub_publish, cinder_hub_read, cinder_hub_receive,
};
pub use line_call::{LineResult, cinder_line_push};
pub use list_call::{ListResult, cinder_list_decode};
pub use packet_call::{PacketResult, cinder_packet_decode};
pub use setting_call::{SettingResult, cinder_setting_find};
pub use stream_call::cinder_stream_next;
pub use text_call::{TextResult, cinder_text_decode, cinder_text_encode};
pub use write_call::{WriteResult, cinder_list_encode, cinder_packet_encode};
