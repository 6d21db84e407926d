// Rows that are read from a table's bytes.
ghost use Rattle.std.specs.Prelude.{◌+◌, ◌*◌, ◌<◌, ◌≤◌, ◌≡◌, eqb, length, get_or, MatchOption};
ghost use Rattle.wire.specs.Every.{every};
ghost use Rattle.wire.specs.Number.{number_at};
ghost use Rattle.slot.specs.Slot.{param_count, tabulate};
ghost use Rattle.slot.specs.Row.{slot_size, present_from, bits_from, word_size, flag_legal, is_row, slot_of, head_of};
ghost use Rattle.slot.specs.Rows.{row_in, slot_in, slot_at};

use crate::{BITS, DEVICE, Head, PRESENT, SLOT_BYTES, SOCKET, Slot, UID, WORD, YEAR};
use catalogue::MAX_PARAMETERS;

// The bits of parameter p.
fn word_of(row: &[u8; SLOT_BYTES], p: usize) -> u32
    requires { p < param_count }
    ensures { result ≡ number_at word_size row.now (bits_from + word_size * p) }
{
    let at = BITS + WORD * p;
    u32::from_le_bytes([row[at], row[at + 1], row[at + 2], row[at + 3]])
}

// Flags and bits are read in loops of one width each, which run on many bytes at once and are compiled into both callers of
// `read_row`. As a call, the judging of a table with one and with four devices takes 750 and 1,261 instructions, with
// `array::from_fn` 599 and 1,131, and 512 and 1,005 so.
#[inline(always)]
fn flags_of(row: &[u8; SLOT_BYTES]) -> [bool; MAX_PARAMETERS]
    ensures { result ≡ tabulate param_count (λ p. eqb (get_or row.now (present_from + p) 0) 1) }
{
    let mut flags = [false; MAX_PARAMETERS];
    for p in 0..MAX_PARAMETERS {
        flags[p] = row[PRESENT + p] == 1;
    }
    flags
}

#[inline(always)]
fn words_of(row: &[u8; SLOT_BYTES]) -> [u32; MAX_PARAMETERS]
    ensures { result ≡ tabulate param_count (λ p. number_at word_size row.now (bits_from + word_size * p)) }
{
    let mut words = [0u32; MAX_PARAMETERS];
    for p in 0..MAX_PARAMETERS {
        words[p] = word_of(row, p);
    }
    words
}

// The slot that a row's bytes spell.
#[inline(always)]
fn read_row(row: &[u8; SLOT_BYTES]) -> Slot
    ensures { result ≡ slot_of row.now }
{
    let present = flags_of(row);
    let bits = words_of(row);
    Slot {
        taken: row[0] == 1,
        socket: row[SOCKET],
        device: row[DEVICE],
        year: row[YEAR],
        uid: numbers::u64_at(row, UID),
        present,
        bits,
    }
}

// The slot that bytes spell, an empty one where they are not as many as a row's.
pub fn slot_of(row: &[u8]) -> Slot
    ensures { result ≡ slot_in row.now }
{
    match row.as_array() {
        Some(row) => read_row(row),
        None => crate::empty_slot(),
    }
}

// Row i of a table's bytes, none past the last whole row.
fn row_at(t: &[u8], i: usize) -> Option<&[u8; SLOT_BYTES]>
    ensures { MatchOption result (length t.now < slot_size * i + slot_size)
        (λ row. (slot_size * i + slot_size ≤ length t.now) × (row.now ≡ row_in t.now i)) }
{
    if t.len() / SLOT_BYTES <= i {
        return None;
    }
    let at = SLOT_BYTES * i;
    t[at..at + SLOT_BYTES].as_array()
}

// Slot i of a table's bytes, an empty one past the last whole row.
pub fn slot_at(t: &[u8], i: usize) -> Slot
    ensures { result ≡ slot_at t.now i }
{
    match row_at(t, i) {
        Some(row) => read_row(row),
        None => crate::empty_slot(),
    }
}

fn read_head(row: &[u8; SLOT_BYTES]) -> Head
    ensures { result ≡ head_of (slot_of row.now) }
{
    Head {
        taken: row[0] == 1,
        socket: row[SOCKET],
        device: row[DEVICE],
        year: row[YEAR],
        uid: numbers::u64_at(row, UID),
    }
}

// The same without its values.
pub fn head_at(t: &[u8], i: usize) -> Head
    ensures { result ≡ head_of (slot_at t.now i) }
{
    match row_at(t, i) {
        Some(row) => read_head(row),
        None => Head {
            taken: false,
            socket: 0,
            device: 0,
            year: 0,
            uid: 0,
        },
    }
}

// Every flag is looked at, so that the loop has one exit and can run on many bytes at once.
fn are_flags(row: &[u8; SLOT_BYTES]) -> bool
    ensures { result ≡ every param_count (λ p. flag_legal (get_or row.now (present_from + p) 0)) }
{
    let mut legal = true;
    for flag in &row[PRESENT..BITS] {
        legal = legal & (*flag <= 1);
    }
    legal
}

// Whether bytes are a row: as many as a row has, and each flag 0 or 1.
pub fn is_row(row: &[u8]) -> bool
    ensures { result ≡ is_row row.now }
{
    match row.as_array::<SLOT_BYTES>() {
        Some(row) => row[0] <= 1 && are_flags(row),
        None => false,
    }
}
