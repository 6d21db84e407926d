// Finding packets in a socket's line for C: numbers and byte areas only.
ghost use Rattle.std.specs.Prelude.{◌≡◌};
ghost use Rattle.packet_line.specs.Push.{answer_of};
ghost use Rattle.cinder.specs.LineCall.{found_in, error_in, line_call};

use packet_line::{Finding, Pushed};

// What was found: nothing yet, a packet or a refusal.
const MORE: u64 = 0;

const PACKET: u64 = 1;

const REFUSAL: u64 = 2;

// What was found, the number of the error, 0 for none, and the bytes consumed.
#[repr(C)]
#[derive(Drop)]
pub struct LineResult {
    pub found: u64,
    pub error: u64,
    pub consumed: u64,
}

impl From<Pushed> for LineResult {
    ghost from_gives = { λ p r. (r.found ≡ found_in (answer_of p.finding)) × (r.error ≡ error_in (answer_of p.finding)) × (r.consumed ≡ p.consumed) };

    fn from(p: Pushed) -> LineResult {
        let (found, error) = match p.finding {
            Finding::Nothing => (MORE, 0),
            Finding::Packet => (PACKET, 0),
            Finding::Refused(error) => (REFUSAL, error.number() as u64),
        };
        LineResult {
            found,
            error,
            consumed: p.consumed as u64,
        }
    }
}

// Takes bytes of a line up to the one that decides a finding; a packet goes to the front of its area.
#[unsafe(no_mangle)]
pub extern "C" fn cinder_line_push(line: &mut [u8], bytes: &[u8], packet: &mut [u8]) -> LineResult
    ensures { record { found = result.found; error = result.error; consumed = result.consumed; line = line.new; packet = packet.new } ≡ line_call line.old bytes.now packet.old }
{
    LineResult::from(packet_line::push(line, bytes, packet))
}
