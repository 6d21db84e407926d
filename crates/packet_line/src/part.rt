// The encoded bytes of a packet, held until all are in. The state is an area of bytes that C lends, so that what it holds is said
// in the contracts and no type has it.
ghost use Rattle.std.specs.Prelude.{◌≡◌, ℕ, ◌+◌, ◌<◌, ◌≤◌, true, List, ◌++◌, length};
ghost use Rattle.wire.specs.Zero.{has_zero};
ghost use Rattle.packet.specs.Refusal.{error_of};
ghost use Rattle.packet.specs.Packet.{PACKET_ROOM, packet_error};
ghost use Rattle.packet_line.specs.State.{inside, size_in, held_in, begun, state_bytes};
ghost use Rattle.packet_line.specs.Turn.{judged_turn};
ghost use Rattle.packet_line.specs.Push.{outcome, outcome_of, taken_from, answer_of};
ghost use Rattle.packet_line.specs.Steps.{IsClean, IsInside, delivered, turned, settled_answer, settled_state};

use super::{
    FRESH, Finding, HELD, OPENED, PACKET, PART, PHASE, Pushed, SIZE, SKIPPING, more, refused,
};
use errors::Error;

// Judges the packet at the front of the bytes; its bytes go to the front of the packet area where it is good.
pub fn deliver(bytes: &[u8], packet: &mut [u8]) -> Result<(), Error>
    requires { PACKET_ROOM ≤ length packet.old }
    ensures { (error_of result ≡ packet_error bytes.now) × (packet.new ≡ delivered bytes.now packet.old) }
{
    packet::judge(bytes)?;
    let size = bytes[1] as usize;
    wire::copy_at(packet, 0, &bytes[0..size + 2]);
    Ok(())
}

// The finding of a packet that was judged, and the phase behind it, in a state with nothing held.
pub fn settle(line: &mut [u8], judged: Result<(), Error>, consumed: usize) -> Pushed
    requires { IsClean line.old }
    ensures { (answer_of result.finding ≡ settled_answer (error_of judged)) × (result.consumed ≡ consumed) × (line.new ≡ state_bytes (settled_state (error_of judged))) }
{
    match judged {
        Ok(()) => {
            line[PHASE] = FRESH;
            Pushed {
                finding: Finding::Packet,
                consumed,
            }
        }
        Err(error) => {
            line[PHASE] = SKIPPING;
            refused(error, consumed)
        }
    }
}

// A 00 is among the bytes: it starts a packet anew, and nothing is held; what follows them has no bearing.
fn cut(line: &mut [u8], bytes: &[u8]) -> Pushed
    requires { IsInside line.old × (length (held_in line.old) + length bytes.now ≤ size_in line.old) × (has_zero bytes.now ≡ true) }
    ensures { (rest area : List ℕ) → outcome (answer_of result.finding) result.consumed line.new area ≡ outcome_of (taken_from (inside (size_in line.old) (held_in line.old)) (bytes.now ++ rest)) area }
{
    wire::clear(&mut *line);
    line[PHASE] = OPENED;
    refused(Error::StrayZero, wire::zero_at(bytes) + 1)
}

// More encoded bytes are held, fewer than all.
fn keep(line: &mut [u8], bytes: &[u8])
    requires { IsInside line.old × (length (held_in line.old) + length bytes.now < size_in line.old) }
    ensures { line.new ≡ state_bytes (inside (size_in line.old) (held_in line.old ++ bytes.now)) }
{
    // Where no bytes come, nothing is called to copy them: 25 instructions fewer there, and one more where some come.
    if bytes.len() == 0 {
        return;
    }
    let held = line[HELD] as usize;
    wire::copy_at(&mut *line, PART + held, bytes);
    line[HELD] = (held + bytes.len()) as u8;
}

// The last of the encoded bytes are in: the packet is judged where it is held.
fn complete(line: &mut [u8], bytes: &[u8], packet: &mut [u8]) -> Pushed
    requires { IsInside line.old × (length (held_in line.old) + length bytes.now ≡ size_in line.old) × (PACKET_ROOM ≤ length packet.old) }
    ensures { outcome (answer_of result.finding) result.consumed line.new packet.new ≡ outcome_of (turned (length bytes.now) (judged_turn (begun (size_in line.old) (held_in line.old ++ bytes.now)))) packet.old }
{
    let held = line[HELD] as usize;
    let size = line[SIZE] as usize;
    wire::copy_at(&mut *line, PART + held, bytes);
    let judged = deliver(&line[PACKET..PART + size], packet);
    wire::clear(&mut *line);
    settle(line, judged, bytes.len())
}

// Bytes that do not complete the part.
fn within(line: &mut [u8], bytes: &[u8]) -> Pushed
    requires { IsInside line.old × (length (held_in line.old) + length bytes.now < size_in line.old) }
    ensures { (area : List ℕ) → outcome (answer_of result.finding) result.consumed line.new area ≡ outcome_of (taken_from (inside (size_in line.old) (held_in line.old)) bytes.now) area }
{
    if wire::has_zero(bytes) {
        return cut(line, bytes);
    }
    keep(line, bytes);
    more(bytes.len())
}

// Bytes that complete the part, unless a 00 is among them; what follows them has no bearing.
fn through(line: &mut [u8], bytes: &[u8], packet: &mut [u8]) -> Pushed
    requires { IsInside line.old × (length (held_in line.old) + length bytes.now ≡ size_in line.old) × (PACKET_ROOM ≤ length packet.old) }
    ensures { (rest : List ℕ) → outcome (answer_of result.finding) result.consumed line.new packet.new ≡ outcome_of (taken_from (inside (size_in line.old) (held_in line.old)) (bytes.now ++ rest)) packet.old }
{
    if wire::has_zero(bytes) {
        return cut(line, bytes);
    }
    complete(line, bytes, packet)
}

// Inside a part.
pub fn from_inside(line: &mut [u8], bytes: &[u8], packet: &mut [u8]) -> Pushed
    requires { IsInside line.old × (PACKET_ROOM ≤ length packet.old) }
    ensures { outcome (answer_of result.finding) result.consumed line.new packet.new ≡ outcome_of (taken_from (inside (size_in line.old) (held_in line.old)) bytes.now) packet.old }
{
    let wanted = line[SIZE] as usize - line[HELD] as usize;
    if bytes.len() < wanted {
        return within(line, bytes);
    }
    through(line, &bytes[0..wanted], packet)
}
