// Reading one list from its text: judged whole, then its rows and its store bytes are written.
#![tactic(auto)]

mod element;
mod fill;
mod known;
mod put;

ghost use Rattle.std.specs.Prelude.{◌≡◌};
ghost use Rattle.list_decode.specs.Decode.{outcome};
ghost use Rattle.text_decode.specs.Decode.{reading_of, decoding_of};

use errors::Error;
pub use fill::Amounts;
use fill::fill;
use list::{ROW_BYTES, STORE_ROOM};

// Reads the text of a list into rows of 12 bytes and a byte store; answers how much was written. A refusal changes neither.
pub fn decode(text: &[u8], rows: &mut [u8], store: &mut [u8]) -> Result<Amounts, Error>
    ensures { outcome (reading_of result) rows.new store.new ≡ decoding_of text.now rows.old store.old }
{
    if rows.len() < ROW_BYTES {
        return Err(Error::NoRoom);
    }
    if store.len() < STORE_ROOM {
        return Err(Error::NoRoom);
    }
    text_check::judge(text)?;
    Ok(fill(text, rows, store))
}
