// Writing one list as text from its rows and its byte store. Everything is judged before the text area is touched.
#![tactic(auto)]

mod digit;
mod emit;
mod form;
mod number;
mod quoted;
mod writer;

ghost use Rattle.std.specs.Prelude.{◌≡◌};
ghost use Rattle.list_encode.specs.Encode.{outcome, result_of};
ghost use Rattle.text_encode.specs.Encode.{encoding_of};

use emit::put_list;
use errors::Error;
use form::have_form;
use text::TEXT_ROOM;
use writer::Writer;

// Writes the text of the list that rows and store describe to the front of the area; answers the number of its characters.
pub fn encode(rows: &[u8], store: &[u8], area: &mut [u8]) -> Result<usize, Error>
    ensures { outcome (result_of result) area.new ≡ encoding_of rows.now store.now area.old }
{
    if area.len() < TEXT_ROOM {
        return Err(Error::NoRoom);
    }
    list_rows::judge(rows, store)?;
    if !have_form(rows) {
        return Err(Error::NoTextForm);
    }
    let mut out = Writer { text: area, end: 0 };
    put_list(rows, store, &mut out);
    Ok(out.end)
}
