// The rows of the list. A list's code and count are written once its elements stand behind them and are counted. Buffer and offset
// stay two parameters: each function ends at an offset that its caller goes on from, and `numbers` takes both.
ghost use Rattle.std.specs.Prelude.{◌+◌, ◌≤◌, ◌≡◌, ◌++◌, length};
ghost use Rattle.std.proofs.lemmas.List.Edits.{sets};
ghost use Rattle.wire.specs.Area.{over};
ghost use Rattle.wire.specs.Number.{le_bytes};
ghost use Rattle.list.specs.Kind.{list_code, code_of};
ghost use Rattle.list.specs.declared.Kind.TheVariants.{Blob};
ghost use Rattle.list.specs.Tree.{none, list, count};
ghost use Rattle.list.specs.Bytes.{number, element_bytes, list_bytes};
ghost use Rattle.slot.specs.Slot.{param_count};
ghost use Rattle.slot.specs.Row.{uid_size};
ghost use Rattle.table.specs.Places.{slot_count, socket_count};
ghost use Rattle.publish.specs.Published.{parameters_from, device_row, published};
ghost use Rattle.publish.specs.Put.{Room, Put, front};

use super::parameter::put_parameter;
use catalogue::MAX_PARAMETERS;
use list::{Kind, LIST_CODE};
use numbers::put_two_u32;
use slot::Slot;
use table::{SLOTS, SOCKETS};

// The bytes of a row before its parameters, and of the outer list before its rows.
const ROW_FRONT: usize = 40;

const LIST_FRONT: usize = 8;

// The elements that every row has: socket, type and UID.
const ROW_FIXED: u32 = 3;

// The bytes of a UID.
const UID_BYTES: u32 = 8;

// The offset behind some elements, and how many they are.
#[derive(Drop)]
struct Extent {
    end: usize,
    count: u32,
}

// The held parameters of a device.
fn put_parameters(c: &[u8], s: Slot, buffer: &mut [u8], at: usize) -> Extent
    requires { Room buffer.old at (element_bytes list_code (parameters_from param_count c.now s 0)) }
    ensures { Put buffer.old at (element_bytes list_code (parameters_from param_count c.now s 0)) buffer.new result.end
        × (result.count ≡ count (parameters_from param_count c.now s 0)) × (result.count ≤ param_count) }
{
    let d = catalogue::find_device(c, s.device);
    let bytes = catalogue::parameter_bytes(c, d);
    let mut end = at;
    let mut count: u32 = 0;
    for p in 0..MAX_PARAMETERS {
        if s.present[p] {
            let kind = catalogue::describe(bytes[p]).kind;
            let v = value::of_kind(kind, s.bits[p]);
            end = put_parameter(buffer, end, p as u32, v);
            count += 1;
        }
    }
    Extent { end, count }
}

// A UID: a blob of eight bytes, low byte first as they came.
fn put_uid(buffer: &mut [u8], at: usize, uid: u64)
    requires { at + 16 ≤ length buffer.old }
    ensures { buffer.new ≡ sets buffer.old at (number (code_of Blob) ++ (number uid_size ++ le_bytes uid_size uid)) }
{
    put_two_u32(buffer, at, Kind::BLOB, UID_BYTES);
    numbers::put_u64(buffer, at + 8, uid);
}

// A device's row up to its parameters, of which `held` follow. `as` widens a byte here; `u32::from` would say no more,
// and its proof would have one equation more for each piece.
fn put_front(buffer: &mut [u8], at: usize, s: Slot, held: u32)
    requires { (at + 40 ≤ length buffer.old) × (held ≤ param_count) }
    ensures { buffer.new ≡ sets buffer.old at (front s held) }
{
    put_two_u32(buffer, at, LIST_CODE, ROW_FIXED + held);
    put_two_u32(buffer, at + 8, Kind::INT, s.socket as u32);
    put_two_u32(buffer, at + 16, Kind::INT, s.device as u32);
    put_uid(buffer, at + 24, s.uid);
}

// A device's row.
fn put_device(c: &[u8], s: Slot, buffer: &mut [u8], at: usize) -> usize
    requires { Room buffer.old at (element_bytes list_code (list (device_row c.now s) none)) }
    ensures { Put buffer.old at (element_bytes list_code (list (device_row c.now s) none)) buffer.new result }
{
    let x = put_parameters(c, s, buffer, at + ROW_FRONT);
    put_front(buffer, at, s, x.count);
    x.end
}

// The rows of all devices.
fn put_devices(c: &[u8], t: &[u8], buffer: &mut [u8], at: usize) -> Extent
    requires { Room buffer.old at (element_bytes list_code (published slot_count socket_count c.now t.now)) }
    ensures { Put buffer.old at (element_bytes list_code (published slot_count socket_count c.now t.now)) buffer.new result.end
        × (result.count ≡ count (published slot_count socket_count c.now t.now)) }
{
    let mut end = at;
    let mut count: u32 = 0;
    for socket in 0..SOCKETS {
        if let Some(i) = table::find_slot(t, SLOTS, socket) {
            let s = slot::slot_at(t, i);
            end = put_device(c, s, buffer, end);
            count += 1;
        }
    }
    Extent { end, count }
}

// The published list at the front of the buffer.
pub fn put_list(c: &[u8], t: &[u8], buffer: &mut [u8]) -> usize
    requires { length (list_bytes (published slot_count socket_count c.now t.now)) ≤ length buffer.old }
    ensures { (buffer.new ≡ over (list_bytes (published slot_count socket_count c.now t.now)) buffer.old)
        × (result ≡ length (list_bytes (published slot_count socket_count c.now t.now))) }
{
    let x = put_devices(c, t, buffer, LIST_FRONT);
    put_two_u32(buffer, 0, LIST_CODE, x.count);
    x.end
}
