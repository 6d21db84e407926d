// An ACK makes a device's row in a slot; a device that leaves empties its slot.
#![tactic(auto)]

ghost use Rattle.std.specs.Prelude.{◌≡◌};
ghost use Rattle.slot.specs.Row.{head_of};
ghost use Rattle.slot.specs.declared.Slot.{Slot};
ghost use Rattle.table.specs.Change.{verdict_of};
ghost use Rattle.attach.specs.Attach.{uid_elsewhere, uid_free, place_for, assigned, left};

use errors::Error;
use slot::Head;

// The row's device has this UID, on another socket.
fn is_elsewhere(h: Head, socket: u8, uid: u64) -> bool
    ensures { (s : Slot) → h ≡ head_of s → result ≡ uid_elsewhere socket uid s }
{
    h.taken && h.socket != socket && h.uid == uid
}

fn is_uid_free(t: &[u8], slots: usize, socket: u8, uid: u64) -> bool
    ensures { result ≡ uid_free slots t.now socket uid }
{
    for i in 0..slots {
        let h = slot::head_at(t, i);
        if is_elsewhere(h, socket, uid) {
            return false;
        }
    }
    true
}

// The socket's own slot, else the lowest empty one. By `or_else` it is no plainer.
fn find_place(t: &[u8], slots: usize, socket: u8) -> Option<usize>
    ensures { result ≡ place_for slots t.now socket }
{
    match table::find_slot(t, slots, socket) {
        Some(i) => Some(i),
        None => table::free_slot(t, slots),
    }
}

// An ACK's payload from a socket: UnknownDevice, UidElsewhere, NoSlot, or a row for the device with no values held.
pub fn assign(c: &[u8], t: &mut [u8], slots: usize, socket: u8, payload: &[u8]) -> Result<(), Error>
    ensures { record { verdict = verdict_of result; table = t.new } ≡ assigned slots c.now t.old socket payload.now }
{
    let device = wire::byte_at(payload, 0);
    let year = wire::byte_at(payload, 1);
    let uid = numbers::u64_at(payload, 2);
    if catalogue::find_device(c, device).is_none() {
        return Err(Error::UnknownDevice);
    }
    if !is_uid_free(&*t, slots, socket, uid) {
        return Err(Error::UidElsewhere);
    }
    let i = find_place(&*t, slots, socket).ok_or(Error::NoSlot)?;
    slot::put_slot(t, i, slot::new_slot(socket, device, year, uid));
    Ok(())
}

// The device on a socket leaves: NoDevice, or its slot is empty.
pub fn leave(t: &mut [u8], slots: usize, socket: u8) -> Result<(), Error>
    ensures { record { verdict = verdict_of result; table = t.new } ≡ left slots t.old socket }
{
    let i = table::find_slot(&*t, slots, socket).ok_or(Error::NoDevice)?;
    slot::put_slot(t, i, slot::empty_slot());
    Ok(())
}
