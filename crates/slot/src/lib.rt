// A row of the table: the struct by which it is judged, made and read, and its bytes in a table that is lent.
#![tactic(auto)]

mod read;
mod write;

use catalogue::MAX_PARAMETERS;
pub use read::{head_at, is_row, slot_at, slot_of};
pub use write::{empty_slot, new_slot, put_slot, put_value};

// The bytes of a row.
pub const SLOT_BYTES: usize = 172;

// Where in a row these stand: socket, device type and year behind the byte that says whether the slot is taken, the UID, a byte
// for each parameter that says whether a value is held, and the values' bits.
const SOCKET: usize = 1;

pub const DEVICE: usize = 2;

pub const YEAR: usize = 3;

const UID: usize = 4;

const PRESENT: usize = 12;

const BITS: usize = 44;

// The bytes of one value's bits.
const WORD: usize = 4;

// A device's row: for each parameter whether a value is held, and its bits. The UID is a number, low byte first in packets
// and lists, so that two of them are compared at once. Its two arrays stay: DECISIONS, "Forms that 01 names".
#[derive(Clone, Copy)]
pub struct Slot {
    pub taken: bool,
    pub socket: u8,
    pub device: u8,
    pub year: u8,
    pub uid: u64,
    pub present: [bool; MAX_PARAMETERS],
    pub bits: [u32; MAX_PARAMETERS],
}

// A row without its values: small, so that a search reads it in registers. Its flag
// stays, since it is a Slot's head field by field, as `head_of` says.
#[derive(Clone, Copy)]
pub struct Head {
    pub taken: bool,
    pub socket: u8,
    pub device: u8,
    pub year: u8,
    pub uid: u64,
}
