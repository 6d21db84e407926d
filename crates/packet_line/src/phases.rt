// Bytes that are handed in: taken up to the one that decides a finding.
ghost use Rattle.std.specs.Prelude.{◌≡◌, ℕ, ◌≤◌, true, false, ◌||◌, List, length, ◌==◌, nat_lt, slice_index};
ghost use Rattle.packet.specs.Refusal.{error_of};
ghost use Rattle.packet.specs.Packet.{PACKET_ROOM as Spec-as-PACKET_ROOM};
ghost use Rattle.packet_line.specs.State.{fresh, skipping, opened, state_bytes, state_in, is_line};
ghost use Rattle.packet_line.specs.Push.{outcome, pushed, answer_of};
ghost use Rattle.packet_line.specs.Steps.{IsClean, IsJudged, Entered};

use super::state::is_line;
use super::{
    Entry, FRESH, INSIDE, OPENED, PHASE, Pushed, SIZE, SKIPPING, begun, found, more, part, refused,
};
use errors::Error;
use packet::{PACKET_ROOM, PART_LEAST};

// Takes the bytes up to the one that decides a finding, or all of them. A good packet goes to the front of the packet area.
// Every way into a part ends in one call, which is compiled in here. The three areas are C's and stay three: the bytes are cut anew
// from step to step, and some steps take no packet area.
pub fn push(line: &mut [u8], bytes: &[u8], packet: &mut [u8]) -> Pushed
    ensures { outcome (answer_of result.finding) result.consumed line.new packet.new ≡ pushed line.old bytes.now packet.old }
{
    if packet.len() < PACKET_ROOM {
        return refused(Error::NoRoom, 0);
    }
    if !is_line(line) {
        return refused(Error::Unlawful, 0);
    }
    let e = enter(&mut *line, bytes, &mut *packet);
    match e.finding {
        Some(finding) => Pushed {
            finding,
            consumed: e.at,
        },
        None => part::from_inside(line, &bytes[e.at..], packet).behind(e.at),
    }
}

// The way to a part's bytes, by the phase.
fn enter(line: &mut [u8], bytes: &[u8], packet: &mut [u8]) -> Entry
    requires { (is_line line.old ≡ true) × (Spec-as-PACKET_ROOM ≤ length packet.old) }
    ensures { Entered result line.new packet.new (state_in line.old) bytes.now packet.old }
{
    let phase = line[PHASE];
    match phase {
        FRESH => from_fresh(line, bytes, packet),
        SKIPPING => from_skipping(line, bytes, packet),
        OPENED => from_opened(line, bytes),
        _ => begun(0),
    }
}

// At the start of a line, or behind a good packet.
fn from_fresh(line: &mut [u8], bytes: &[u8], packet: &mut [u8]) -> Entry
    requires { (line.old ≡ state_bytes fresh) × (Spec-as-PACKET_ROOM ≤ length packet.old) }
    ensures { Entered result line.new packet.new fresh bytes.now packet.old }
{
    if bytes.len() == 0 {
        return found(more(0));
    }
    if bytes[0] != 0 {
        line[PHASE] = SKIPPING;
        return found(refused(Error::NoStart, 1));
    }
    from_zero(line, bytes, packet)
}

// Up to the next 00.
fn from_skipping(line: &mut [u8], bytes: &[u8], packet: &mut [u8]) -> Entry
    requires { (line.old ≡ state_bytes skipping) × (Spec-as-PACKET_ROOM ≤ length packet.old) }
    ensures { Entered result line.new packet.new skipping bytes.now packet.old }
{
    let at = wire::zero_at(bytes);
    if at == bytes.len() {
        return found(more(at));
    }
    from_zero(line, &bytes[at..], packet).behind(at)
}

// Whether the packet reader answers so only where the packet is all there.
fn is_whole(judged: Result<(), Error>) -> bool
    ensures { result ≡ (error_of judged == 0 || nat_lt 4 (error_of judged)) }
{
    let Err(error) = judged else {
        return true;
    };
    match error {
        Error::Incomplete | Error::NoStart | Error::ShortPart | Error::StrayZero => false,
        _ => true,
    }
}

// Judges and delivers the packet at the front where it is all there; else it is incomplete, without a look at its bytes.
fn deliver_whole(bytes: &[u8], packet: &mut [u8]) -> Result<(), Error>
    requires { Spec-as-PACKET_ROOM ≤ length packet.old }
    ensures { IsJudged (error_of result) packet.new bytes.now packet.old }
{
    if bytes.len() < 2 {
        return Err(Error::Incomplete);
    }
    if bytes.len() < bytes[1] as usize + 2 {
        return Err(Error::Incomplete);
    }
    part::deliver(bytes, packet)
}

// At a 00, which starts a packet. Where the packet is all there, it is judged where it stands; else it goes into the line state.
fn from_zero(line: &mut [u8], bytes: &[u8], packet: &mut [u8]) -> Entry
    requires { IsClean line.old × (1 ≤ length bytes.now) × (slice_index bytes.now 0 ≡ 0) × (Spec-as-PACKET_ROOM ≤ length packet.old) }
    ensures { Entered result line.new packet.new fresh bytes.now packet.old }
{
    let judged = deliver_whole(bytes, packet);
    if is_whole(judged) {
        return found(part::settle(line, judged, bytes[1] as usize + 2));
    }
    line[PHASE] = OPENED;
    from_opened(line, &bytes[1..]).behind(1)
}

// Behind a 00, at the length byte.
fn from_opened(line: &mut [u8], bytes: &[u8]) -> Entry
    requires { line.old ≡ state_bytes opened }
    ensures { (area : List ℕ) → Entered result line.new area opened bytes.now area }
{
    if bytes.len() == 0 {
        return found(more(0));
    }
    let size = bytes[0];
    if size == 0 {
        return found(refused(Error::ShortPart, 1));
    }
    if (size as usize) < PART_LEAST {
        line[PHASE] = SKIPPING;
        return found(refused(Error::ShortPart, 1));
    }
    line[PHASE] = INSIDE;
    line[SIZE] = size;
    begun(1)
}
