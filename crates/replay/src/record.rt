// Records: their sizes, and what each asks for.
ghost use Rattle.std.specs.Prelude.{◌≡◌, true, drop, IfSome};
ghost use Rattle.replay.specs.Record.{record_size, Whole};

use hub::{SLOT_BYTES, TABLE_BYTES};

// The first bytes of records.
const RECEIVE: u8 = 1;

const DETACH: u8 = 2;

const PUBLISH: u8 = 3;

const READ: u8 = 4;

const LOAD: u8 = 5;

const SHOW: u8 = 6;

const LINE: u8 = 7;

// The bytes before a packet or a line's bytes: the record's first, the socket and a length of two bytes.
const FRONT: usize = 4;

pub enum Record<'r> {
    Receive { socket: u8, packet: &'r [u8] },
    Detach { socket: u8 },
    Publish,
    Read { socket: u8, index: u8 },
    Load { table: &'r [u8] },
    Show,
    Line { socket: u8, bytes: &'r [u8] },
}

// The bytes of the record that these bytes start with, 0 where its number is unknown.
fn size_of(s: &[u8]) -> usize
    ensures { result ≡ record_size s.now }
{
    match wire::byte_at(s, 0) {
        RECEIVE => FRONT + numbers::u16_at(s, 2) as usize,
        DETACH => 2,
        PUBLISH => 1,
        READ => 3,
        LOAD => 1 + TABLE_BYTES,
        SHOW => 1,
        LINE => FRONT + numbers::u16_at(s, 2) as usize,
        _ => 0,
    }
}

// Whether a record that is known, whole and loads no other flags than 0 and 1 stands at the front.
fn is_good(s: &[u8]) -> bool
    ensures { result ≡ true → Whole s.now }
{
    let size = size_of(s);
    if size == 0 {
        return false;
    }
    if s.len() < size {
        return false;
    }
    if s[0] == LOAD {
        return s[1..size]
            .chunks_exact(SLOT_BYTES)
            .all(|row| slot::is_row(row));
    }
    true
}

// The record at the front of the bytes and the bytes behind it, where it is a good one.
pub fn next(s: &[u8]) -> Option<(Record<'_>, &[u8])>
    ensures { IfSome result (λ r. Whole s.now × (r.1.now ≡ drop (record_size s.now) s.now)) }
{
    if !is_good(s) {
        return None;
    }
    let (front, behind) = s.split_at(size_of(s));
    let socket = wire::byte_at(front, 1);
    let record = match s[0] {
        RECEIVE => Record::Receive {
            socket,
            packet: &front[FRONT..],
        },
        DETACH => Record::Detach { socket },
        PUBLISH => Record::Publish,
        READ => Record::Read {
            socket,
            index: wire::byte_at(front, 2),
        },
        LOAD => Record::Load { table: &front[1..] },
        LINE => Record::Line {
            socket,
            bytes: &front[FRONT..],
        },
        _ => Record::Show,
    };
    Some((record, behind))
}
