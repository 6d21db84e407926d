// One parameter is read.
ghost use Rattle.std.specs.Prelude.{◌≡◌};
ghost use Rattle.parameters.specs.Read.{held_of, finding_of, content_of, found};

use catalogue::{Kind, MAX_PARAMETERS};
use errors::Error;
use slot::Slot;
use value::Value;

// What a slot holds of a parameter.
fn read_slot(c: &[u8], s: Slot, index: u64) -> Option<Value>
    ensures { held_of result ≡ content_of c.now s index }
{
    if index >= MAX_PARAMETERS as u64 {
        return None;
    }
    let p = index as usize;
    if !s.present[p] {
        return None;
    }
    let kind = match catalogue::find_parameter(c, s.device, p) {
        Some(q) => q.kind,
        None => Kind::Int,
    };
    Some(value::of_kind(kind, s.bits[p]))
}

// One parameter of the device on a socket: NoDevice, or its value or absent.
pub fn read(
    c: &[u8],
    t: &[u8],
    slots: usize,
    socket: u8,
    index: u64,
) -> Result<Option<Value>, Error>
    ensures { finding_of result ≡ found slots c.now t.now socket index }
{
    let i = table::find_slot(t, slots, socket).ok_or(Error::NoDevice)?;
    Ok(read_slot(c, slot::slot_at(t, i), index))
}
