// Rows that are made, and put into a table's bytes.
ghost use Rattle.std.specs.Prelude.{◌≡◌, true};
ghost use Rattle.slot.specs.Slot.{fresh_slot, empty_slot};
ghost use Rattle.slot.specs.Row.{head_bytes, flag_bytes, word_bytes};
ghost use Rattle.slot.specs.Rows.{with_slot, held_in};

use crate::{BITS, PRESENT, SLOT_BYTES, Slot, WORD};
use catalogue::MAX_PARAMETERS;
use std::array;

// A row with no values held: every row is made here.
fn fresh_slot(taken: bool, socket: u8, device: u8, year: u8, uid: u64) -> Slot
    ensures { result ≡ fresh_slot taken socket device year uid }
{
    Slot {
        taken,
        socket,
        device,
        year,
        uid,
        present: [false; MAX_PARAMETERS],
        bits: [0; MAX_PARAMETERS],
    }
}

// The row of a device that has sent no values yet.
pub fn new_slot(socket: u8, device: u8, year: u8, uid: u64) -> Slot
    ensures { result ≡ fresh_slot true socket device year uid }
{
    fresh_slot(true, socket, device, year, uid)
}

pub fn empty_slot() -> Slot
    ensures { result ≡ empty_slot }
{
    fresh_slot(false, 0, 0, 0, 0)
}

fn head_bytes(taken: bool, socket: u8, device: u8, year: u8, uid: u64) -> [u8; PRESENT]
    ensures { result ≡ head_bytes taken socket device year uid }
{
    let u = numbers::bytes64(uid);
    [
        u8::from(taken),
        socket,
        device,
        year,
        u[0],
        u[1],
        u[2],
        u[3],
        u[4],
        u[5],
        u[6],
        u[7],
    ]
}

fn flag_bytes(present: [bool; MAX_PARAMETERS]) -> [u8; MAX_PARAMETERS]
    ensures { result ≡ flag_bytes present }
{
    array::from_fn(|p: usize| u8::from(present[p]))
}

fn word_bytes(bits: [u32; MAX_PARAMETERS]) -> [u8; WORD * MAX_PARAMETERS]
    ensures { result ≡ word_bytes bits }
{
    let mut bytes = [0u8; WORD * MAX_PARAMETERS];
    for p in 0..MAX_PARAMETERS {
        numbers::put_u32(&mut bytes, WORD * p, bits[p]);
    }
    bytes
}

// Slot i replaced, where the table has it; else nothing changes.
pub fn put_slot(t: &mut [u8], i: usize, s: Slot)
    ensures { t.new ≡ with_slot t.old i s }
{
    if t.len() / SLOT_BYTES <= i {
        return;
    }
    let at = SLOT_BYTES * i;
    let present = s.present;
    let bits = s.bits;
    let h = head_bytes(s.taken, s.socket, s.device, s.year, s.uid);
    let f = flag_bytes(present);
    let w = word_bytes(bits);
    wire::copy_at(&mut *t, at, &h);
    wire::copy_at(&mut *t, at + PRESENT, &f);
    wire::copy_at(t, at + BITS, &w);
}

// A value of a parameter is held, in place; what is no row or no parameter of one stays as it is.
pub fn put_value(row: &mut [u8], p: usize, bits: u32)
    ensures { row.new ≡ held_in row.old p bits }
{
    if row.len() != SLOT_BYTES {
        return;
    }
    if MAX_PARAMETERS <= p {
        return;
    }
    row[PRESENT + p] = 1;
    numbers::put_u32(row, BITS + WORD * p, bits);
}
