// The text of lists for C: numbers and byte areas only.
ghost use Rattle.std.specs.Prelude.{◌≡◌};
ghost use Rattle.list_decode.specs.Decode.{outcome};
ghost use Rattle.text_decode.specs.Decode.{reading_of};
ghost use Rattle.cinder.specs.TextCall.{text_numbers, text_write_call, text_read_call};

use crate::write_call::WriteResult;
use errors::Error;
use text_decode::Amounts;

// The number of the error, 0 for none; the rows filled and the store bytes in use, 0 on an error.
#[repr(C)]
#[derive(Drop)]
pub struct TextResult {
    pub error: u64,
    pub rows: u64,
    pub stored: u64,
}

impl From<Result<Amounts, Error>> for TextResult {
    ghost from_gives = { λ answer r. r ≡ text_numbers (reading_of answer) };

    fn from(answer: Result<Amounts, Error>) -> TextResult {
        match answer {
            Ok(amounts) => TextResult {
                error: 0,
                rows: amounts.rows as u64,
                stored: amounts.stored as u64,
            },
            Err(error) => TextResult {
                error: error.number() as u64,
                rows: 0,
                stored: 0,
            },
        }
    }
}

// Writes the text of the list of rows, 12 bytes each, and a byte store to the front of the area.
#[unsafe(no_mangle)]
pub extern "C" fn cinder_text_encode(rows: &[u8], store: &[u8], text: &mut [u8]) -> WriteResult
    ensures { record { answer = result; area = text.new } ≡ text_write_call rows.now store.now text.old }
{
    // By cases, so that a must-fail edit can change what this call alone hands on.
    match text_encode::encode(rows, store, text) {
        Ok(count) => WriteResult::from(Ok(count)),
        Err(error) => WriteResult::from(Err(error)),
    }
}

// Reads the text of a list into rows of 12 bytes each and a byte store.
#[unsafe(no_mangle)]
pub extern "C" fn cinder_text_decode(text: &[u8], rows: &mut [u8], store: &mut [u8]) -> TextResult
    ensures { outcome result rows.new store.new ≡ text_read_call text.now rows.old store.old }
{
    TextResult::from(text_decode::decode(text, rows, store))
}
