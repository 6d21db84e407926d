// Packets on a socket: 00, a length byte, a message in COBS blocks. Every call answers for every input.
#![tactic(auto)]

mod cobs;
mod message;
mod read;

use errors::Error;
pub use message::{MessageType, is_allowed};
pub use read::{decode, decode_into, judge};

// Room for any packet: the size of a working copy, and the least buffer that is written to.
pub const PACKET_ROOM: usize = 257;

// The fewest encoded bytes that a packet may have; the most are what its length byte holds.
pub const PART_LEAST: usize = 4;

// An accepted packet: its type, and how many bytes its payload and the packet itself have.
#[derive(Clone, Copy, Debug, PartialEq, Eq)]
pub struct Packet {
    pub kind: MessageType,
    pub payload_len: usize,
    pub consumed: usize,
}

// The answer beside the working copy: the message with zeros behind it, or zeros alone.
#[derive(Drop)]
pub struct Decoded {
    pub answer: Result<Packet, Error>,
    pub message: [u8; PACKET_ROOM],
}
