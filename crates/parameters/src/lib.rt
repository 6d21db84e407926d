// A device's parameters: its row with a DEVICE_DATA packet's values, and the reading of one parameter.
#![tactic(auto)]

mod data;
mod parameter;

pub use data::apply_data;
pub use parameter::read;
