// Reading one list: judged whole, then its rows and its store bytes are written.
#![tactic(auto)]

mod fill;
mod put;
mod run;

ghost use Rattle.std.specs.Prelude.{◌≡◌};
ghost use Rattle.list.specs.Refusal.{refusal, refusal_of};
ghost use Rattle.list_decode.specs.Decode.{outcome, reading_of, decoding_of};

use errors::Error;
use list::{ROW_BYTES, Refusal, STORE_ROOM};

// The list at the front: the bytes it takes, the rows it fills and the store bytes in use.
#[derive(Clone, Copy)]
pub struct Decoded {
    pub consumed: usize,
    pub rows: u32,
    pub stored: usize,
}

fn no_room() -> Refusal
    ensures { refusal_of result ≡ refusal 20 0 }
{
    Refusal {
        error: Error::NoRoom,
        offset: 0,
        depth: 0,
    }
}

// Reads the list at the front of `bytes` into rows of 12 bytes and a byte store. A refusal changes neither.
pub fn decode(bytes: &[u8], rows: &mut [u8], store: &mut [u8]) -> Result<Decoded, Refusal>
    ensures { outcome (reading_of result) rows.new store.new ≡ decoding_of bytes.now rows.old store.old }
{
    if rows.len() < ROW_BYTES {
        return Err(no_room());
    }
    if store.len() < STORE_ROOM {
        return Err(no_room());
    }
    let consumed = list_check::check(bytes)?;
    let n = fill::fill(&bytes[..consumed], rows, store);
    Ok(Decoded {
        consumed,
        rows: n.rows,
        stored: n.stored,
    })
}
