// The packets of a socket's line, found as its bytes arrive. Every call answers for every input.
#![tactic(auto)]

mod part;
mod phases;
mod state;

ghost use Rattle.std.specs.Prelude.{◌≡◌, ◌+◌, ◌<◌, ◌^◌, Some, None};
ghost use Rattle.packet_line.specs.declared.Finding.TheVariants.{Nothing, Refused};
ghost use Rattle.packet_line.specs.Steps.{pushed_behind, entry_behind};

use errors::Error;
pub use phases::push;
pub use state::is_line;

// The bytes of a line state.
pub const LINE_ROOM: usize = 259;

// The phases, which are bytes of the area that C lends and so no enum: at the start of a line or behind a good packet; up to the
// next 00; behind a 00, at the length byte; inside a part.
pub const FRESH: u8 = 0;

pub const SKIPPING: u8 = 1;

pub const OPENED: u8 = 2;

pub const INSIDE: u8 = 3;

// Where in a line state these stand: the phase, the number of encoded bytes held, and the packet as far as it has come, its 00,
// its length byte and the encoded bytes held.
const PHASE: usize = 0;

const HELD: usize = 1;

const PACKET: usize = 2;

const SIZE: usize = 3;

const PART: usize = 4;

// What the bytes of a call decide.
#[derive(Clone, Copy, Debug, PartialEq, Eq)]
pub enum Finding {
    // More is wanted.
    Nothing,
    // A good packet, which the packet area holds.
    Packet,
    Refused(Error),
}

#[derive(Clone, Copy, Debug, PartialEq, Eq)]
pub struct Pushed {
    pub finding: Finding,
    pub consumed: usize,
}

impl Pushed {
    // The same behind so many more bytes.
    fn behind(self, before: usize) -> Pushed
        requires { before + self.consumed < 2 ^ 64 }
        ensures { result ≡ pushed_behind before self }
    {
        Pushed {
            finding: self.finding,
            consumed: before + self.consumed,
        }
    }
}

// Where the way to a part's bytes ends: with what the bytes decide, or with nothing where a part's bytes come next.
#[derive(Clone, Copy)]
struct Entry {
    finding: Option<Finding>,
    at: usize,
}

impl Entry {
    // The same behind so many more bytes.
    fn behind(self, before: usize) -> Entry
        requires { before + self.at < 2 ^ 64 }
        ensures { result ≡ entry_behind before self }
    {
        Entry {
            finding: self.finding,
            at: before + self.at,
        }
    }
}

// No part's bytes come next.
fn found(p: Pushed) -> Entry
    ensures { result ≡ record { finding = Some p.finding; at = p.consumed } }
{
    Entry {
        finding: Some(p.finding),
        at: p.consumed,
    }
}

// A part's bytes come next, from this offset on.
fn begun(at: usize) -> Entry
    ensures { result ≡ record { finding = None; at = at } }
{
    Entry { finding: None, at }
}

// A refusal that took so many bytes.
fn refused(error: Error, consumed: usize) -> Pushed
    ensures { result ≡ record { finding = Refused error; consumed = consumed } }
{
    Pushed {
        finding: Finding::Refused(error),
        consumed,
    }
}

// More is wanted.
fn more(consumed: usize) -> Pushed
    ensures { result ≡ record { finding = Nothing; consumed = consumed } }
{
    Pushed {
        finding: Finding::Nothing,
        consumed,
    }
}
