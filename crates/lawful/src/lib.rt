// Whether bytes are a lawful table under a catalogue.
#![tactic(auto)]

ghost use Rattle.std.specs.Prelude.{ℕ, ◌+◌, ◌*◌, ◌≤◌, ◌<◌, ◌≡◌, false, ltb, length, get_or, Some};
ghost use Rattle.wire.specs.Every.{every};
ghost use Rattle.catalogue.specs.Format.{described};
ghost use Rattle.slot.specs.Slot.{param_count, present_at, bits_at};
ghost use Rattle.slot.specs.Row.{slot_size, head_of};
ghost use Rattle.slot.specs.Rows.{slot_at};
ghost use Rattle.table.specs.Change.{verdict_of};
ghost use Rattle.lawful.specs.Lawful.{value_lawful, nothing_held, slot_lawful, slots_differ, lawful_at, lawful, admission};

use catalogue::{Kind, MAX_PARAMETERS};
use errors::Error;
use slot::{Head, SLOT_BYTES, Slot};

// Which of the values are above a limit. The loops over parameters, here and below, look at every one, so that they have one
// exit and can run on several at once; this one leaves a byte for each value, so that the loop over the flags works on bytes
// alone.
fn above(bits: [u32; MAX_PARAMETERS], limit: u32) -> [bool; MAX_PARAMETERS]
    ensures { (p : ℕ) → p < param_count → get_or result p false ≡ ltb limit (get_or bits p 0) }
{
    let mut found = [false; MAX_PARAMETERS];
    for (i, b) in bits.iter().enumerate() {
        found[i] = limit < *b;
    }
    found
}

// A value by its parameter's byte, and whether its bits are above 0 and above 1.
fn is_lawful_value(b: u8, present: bool, above0: bool, above1: bool) -> bool
    ensures { (bits : ℕ) → above0 ≡ ltb 0 bits → above1 ≡ ltb 1 bits → result ≡ value_lawful (Some (described b)) present bits }
{
    let p = catalogue::describe(b);
    let held = p.readable & ((p.kind != Kind::Bool) | !above1);
    (present & held) | (!present & !above0)
}

// The values of a slot whose parameters have these bytes.
fn are_lawful_values(bytes: [u8; MAX_PARAMETERS], s: Slot) -> bool
    ensures { result ≡ every param_count (λ p. value_lawful (Some (described (get_or bytes p 0))) (present_at s p) (bits_at s p)) }
{
    let bits = s.bits;
    let above0 = above(bits, 0);
    let above1 = above(bits, 1);
    let mut lawful = true;
    for (i, b) in bytes.iter().enumerate() {
        lawful &= is_lawful_value(*b, s.present[i], above0[i], above1[i]);
    }
    lawful
}

fn holds_nothing(s: Slot) -> bool
    ensures { result ≡ every param_count (nothing_held s) }
{
    let mut nothing = true;
    for i in 0..MAX_PARAMETERS {
        nothing &= !s.present[i] & (s.bits[i] == 0);
    }
    nothing
}

fn is_lawful_slot(c: &[u8], s: Slot, sockets: u8) -> bool
    ensures { result ≡ slot_lawful sockets c.now s }
{
    if !s.taken {
        return s.socket == 0 && s.device == 0 && s.year == 0 && s.uid == 0 && holds_nothing(s);
    }
    if s.socket >= sockets {
        return false;
    }
    let d = catalogue::find_device(c, s.device);
    d.is_some() && are_lawful_values(catalogue::parameter_bytes(c, d), s)
}

fn do_heads_differ(g: Head, h: Head) -> bool
    ensures { (s u : Slot) → g ≡ head_of s → h ≡ head_of u → result ≡ slots_differ s u }
{
    !(g.taken && h.taken) || (g.socket != h.socket && g.uid != h.uid)
}

// Slot i differs from those before it.
fn differs_from_before(t: &[u8], i: usize) -> bool
    ensures { result ≡ every i (λ j. slots_differ (slot_at t.now j) (slot_at t.now i)) }
{
    let h = slot::head_at(t, i);
    for j in 0..i {
        let g = slot::head_at(t, j);
        if !do_heads_differ(g, h) {
            return false;
        }
    }
    true
}

// Slot i by itself, and against those before it.
fn is_lawful_at(c: &[u8], t: &[u8], i: usize, sockets: u8) -> bool
    requires { slot_size * i + slot_size ≤ length t.now }
    ensures { result ≡ lawful_at sockets c.now t.now i }
{
    let at = SLOT_BYTES * i;
    let row = &t[at..at + SLOT_BYTES];
    if !slot::is_row(row) {
        return false;
    }
    let s = slot::slot_of(row);
    if !is_lawful_slot(c, s, sockets) {
        return false;
    }
    differs_from_before(t, i)
}

// Whether bytes are a lawful table of so many slots and sockets under the catalogue.
pub fn is_lawful(c: &[u8], t: &[u8], slots: usize, sockets: u8) -> bool
    ensures { result ≡ lawful slots sockets c.now t.now }
{
    if t.len() / SLOT_BYTES != slots {
        return false;
    }
    if t.len() % SLOT_BYTES != 0 {
        return false;
    }
    for i in 0..slots {
        if !is_lawful_at(c, t, i, sockets) {
            return false;
        }
    }
    true
}

// What a call for a socket is judged by first: IllegalCatalogue, Unlawful, NoSocket.
pub fn admit(c: &[u8], t: &[u8], slots: usize, sockets: u8, socket: u64) -> Result<(), Error>
    ensures { verdict_of result ≡ admission slots sockets c.now t.now socket }
{
    if !catalogue::is_legal(c) {
        return Err(Error::IllegalCatalogue);
    }
    if !is_lawful(c, t, slots, sockets) {
        return Err(Error::Unlawful);
    }
    if socket >= u64::from(sockets) {
        return Err(Error::NoSocket);
    }
    Ok(())
}
