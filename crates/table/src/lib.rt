// The table of devices, lent as bytes: where a socket's device is and which slot is free, by the heads of rows alone. How many
// slots there are is an argument.
#![tactic(auto)]

mod places;

pub use places::{find_slot, free_slot};

// How many slots the hub has, and how many sockets.
pub const SLOTS: usize = 4;

pub const SOCKETS: u8 = 8;
