// DEVICE_DATA: all is judged before anything is written.
ghost use Rattle.std.specs.Prelude.{◌+◌, ◌*◌, ◌≤◌, ◌<◌, ◌^◌, ◌≡◌, true, List, ℕ, ◌||◌, not, leb, eqb};
ghost use Rattle.catalogue.specs.Format.{kind_bool, kind_number};
ghost use Rattle.slot.specs.Slot.{param_count};
ghost use Rattle.slot.specs.Row.{slot_of, slot_bytes, is_row};
ghost use Rattle.slot.specs.declared.Slot.{Slot};
ghost use Rattle.table.specs.Change.{verdict_of};
ghost use Rattle.parameters.specs.Data.{long_width, width, named, value_at, all_readable, size_of, all_flags, judged, stored_to, changed_row, applied};
ghost use Rattle.parameters.specs.Given.{Given, IsWidth};

use catalogue::{Kind, MAX_PARAMETERS};
use errors::Error;
use slot::SLOT_BYTES;

// The bytes before the first value: the map's.
const MAP_BYTES: usize = 4;

// The first year whose devices send an INT as four bytes.
const LONG_INT_YEAR: u8 = 6;

// The widths that there are: SHORT for an old device's INT, LONG for every other INT and a FLOAT, FLAG for a BOOL.
const SHORT: usize = 2;

const LONG: usize = 4;

const FLAG: usize = 1;

// How many bytes a value of this kind has in a packet of a device of this year. Lengths, offsets and values go by it.
fn width_of(year: u8, kind: Kind) -> usize
    ensures { (result ≡ width year (kind_number kind)) × (result ≤ long_width) }
{
    match kind {
        Kind::Int if year < LONG_INT_YEAR => SHORT,
        Kind::Int => LONG,
        Kind::Float => LONG,
        Kind::Bool | Kind::Unknown => FLAG,
    }
}

// The value of this width at an offset, as it is held.
fn value_at(w: usize, payload: &[u8], at: usize) -> u32
    requires { IsWidth w }
    ensures { result ≡ value_at w payload.now at }
{
    if w == LONG {
        return numbers::u32_at(payload, at);
    }
    if w == SHORT {
        return value::extend(numbers::u16_at(payload, at));
    }
    u32::from(wire::byte_at(payload, at))
}

// A value of this kind at an offset is 0 or 1, if it is a BOOL.
fn is_flag(year: u8, kind: Kind, payload: &[u8], at: usize) -> bool
    ensures { result ≡ (not (eqb (kind_number kind) kind_bool) || leb (value_at (width year (kind_number kind)) payload.now at) 1) }
{
    if kind == Kind::Bool {
        let v = value_at(width_of(year, kind), payload, at);
        return v <= 1;
    }
    true
}

// The bits of a map up to its highest set one. Loops over the parameters end behind it, since most packets name few of them.
fn bits_of(map: u32) -> usize
    ensures { (map < 2 ^ result) × (result ≤ param_count) }
{
    (u32::BITS - map.leading_zeros()) as usize
}

// The map names parameter p.
fn is_named(map: u32, p: usize) -> bool
    requires { p < param_count }
    ensures { result ≡ named map p }
{
    (map >> p) % 2 == 1
}

// The four loops over a map's bits stay four: each does another thing at a named parameter, and two end early.

// What a device's payloads are laid out by: the year of its row, and the bytes of its type's parameters. What the methods promise
// they promise for every catalogue and row that these are of.
#[derive(Clone, Copy)]
struct Layout {
    year: u8,
    bytes: [u8; MAX_PARAMETERS],
}

impl Layout {
    // Each parameter that the map names is readable.
    fn are_readable(&self, map: u32) -> bool
        ensures { (c : List ℕ) (s : Slot) → Given c s self.now.year self.now.bytes → result ≡ all_readable c s map }
    {
        for p in 0..bits_of(map) {
            if is_named(map, p) {
                let q = catalogue::describe(self.bytes[p]);
                if !q.readable {
                    return false;
                }
            }
        }
        true
    }

    // How many bytes a payload with this map has.
    fn size_of(&self, map: u32) -> usize
        ensures { (c : List ℕ) (s : Slot) → Given c s self.now.year self.now.bytes → result ≡ size_of c s map }
    {
        let mut at = MAP_BYTES;
        for p in 0..bits_of(map) {
            if is_named(map, p) {
                let q = catalogue::describe(self.bytes[p]);
                at += width_of(self.year, q.kind);
            }
        }
        at
    }

    // Each BOOL that the map names is 0 or 1.
    fn are_flags(&self, map: u32, payload: &[u8]) -> bool
        ensures { (c : List ℕ) (s : Slot) → Given c s self.now.year self.now.bytes → result ≡ all_flags c s map payload.now }
    {
        let mut at = MAP_BYTES;
        for p in 0..bits_of(map) {
            if is_named(map, p) {
                let q = catalogue::describe(self.bytes[p]);
                if !is_flag(self.year, q.kind, payload, at) {
                    return false;
                }
                at += width_of(self.year, q.kind);
            }
        }
        true
    }

    // NotReadable, DataLength, NoFlag.
    fn judge(&self, payload: &[u8]) -> Result<(), Error>
        ensures { (c : List ℕ) (s : Slot) → Given c s self.now.year self.now.bytes → verdict_of result ≡ judged c s payload.now }
    {
        let map = numbers::u32_at(payload, 0);
        if !self.are_readable(map) {
            return Err(Error::NotReadable);
        }
        if self.size_of(map) != payload.len() {
            return Err(Error::DataLength);
        }
        if !self.are_flags(map, payload) {
            return Err(Error::NoFlag);
        }
        Ok(())
    }

    // The values that the payload has are put into the row, in place.
    fn store(&self, row: &mut [u8], map: u32, payload: &[u8])
        requires { is_row row.old ≡ true }
        ensures { (c : List ℕ) → Given c (slot_of row.old) self.now.year self.now.bytes →
            row.new ≡ slot_bytes (stored_to c (slot_of row.old) map payload.now param_count) }
    {
        let mut at = MAP_BYTES;
        for p in 0..bits_of(map) {
            if is_named(map, p) {
                let q = catalogue::describe(self.bytes[p]);
                let w = width_of(self.year, q.kind);
                let v = value_at(w, payload, at);
                slot::put_value(&mut *row, p, v);
                at += w;
            }
        }
    }
}

// The device's row with the payload's values: Unlawful for bytes that are no row, NotReadable, DataLength, NoFlag.
fn change_row(c: &[u8], row: &mut [u8], payload: &[u8]) -> Result<(), Error>
    ensures { record { verdict = verdict_of result; table = row.new } ≡ changed_row c.now row.old payload.now }
{
    if !slot::is_row(&*row) {
        return Err(Error::Unlawful);
    }
    let year = row[slot::YEAR];
    let d = catalogue::find_device(c, row[slot::DEVICE]);
    let bytes = catalogue::parameter_bytes(c, d);
    let layout = Layout { year, bytes };
    layout.judge(payload)?;
    layout.store(row, numbers::u32_at(payload, 0), payload);
    Ok(())
}

// A DEVICE_DATA payload from a socket: NoDevice, Unlawful where the socket's bytes are no row, NotReadable, DataLength,
// NoFlag, or the values that its map names are replaced in the socket's row.
pub fn apply_data(
    c: &[u8],
    t: &mut [u8],
    slots: usize,
    socket: u8,
    payload: &[u8],
) -> Result<(), Error>
    ensures { record { verdict = verdict_of result; table = t.new } ≡ applied slots c.now t.old socket payload.now }
{
    let i = table::find_slot(&*t, slots, socket).ok_or(Error::NoDevice)?;
    let at = SLOT_BYTES * i;
    change_row(c, &mut t[at..at + SLOT_BYTES], payload)
}
