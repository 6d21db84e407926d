// Writing one list from its rows and its byte store. Everything is judged before the buffer is touched.
#![tactic(auto)]

mod emit;

ghost use Rattle.std.specs.Prelude.{◌≡◌};
ghost use Rattle.list_encode.specs.Encode.{outcome, result_of, encoding_of};

use emit::emit_rows;
use errors::Error;
use list::LIST_LIMIT;

// Writes the list that rows and store describe to the front of the buffer; answers the number of its bytes.
pub fn encode(rows: &[u8], store: &[u8], buffer: &mut [u8]) -> Result<usize, Error>
    ensures { outcome (result_of result) buffer.new ≡ encoding_of rows.now store.now buffer.old }
{
    if buffer.len() < LIST_LIMIT {
        return Err(Error::NoRoom);
    }
    let n = list_rows::judge(rows, store)?;
    emit_rows(rows, store, buffer);
    Ok(n)
}
