// Writes a row, and the store bytes of a string or a blob.
ghost use Rattle.std.specs.Prelude.{◌+◌, ◌≤◌, ◌≡◌, [], ◌∷◌, true, length, drop};
ghost use Rattle.std.proofs.lemmas.List.Edits.{sets};
ghost use Rattle.list.specs.RowBytes.{packed};
ghost use Rattle.text.specs.Read.{chars_at, bytes_at};
ghost use Rattle.text_decode.specs.Pieces.{BytesHere, BytesPut};

use crate::known::{behind_gap, known_byte, known_char};
use list::ROW;

// The part that takes the row has its size, so that the compiler leaves no test of room.
pub fn put_row(rows: &mut [u8], at: usize, code: u32, second: u32, third: u32)
    requires { at + 12 ≤ length rows.old }
    ensures { rows.new ≡ sets rows.old at (packed (code ∷ second ∷ third ∷ [])) }
{
    rows[at..at + ROW].copy_from_slice(&list::row_bytes(code, second, third));
}

// Where the copying of a string or a blob ends: behind its characters, and behind its bytes in the store.
#[derive(Drop)]
pub struct CopiedTo {
    pub pos: usize,
    pub used: usize,
}

// The bytes of a string whose characters begin at an offset, behind its opening quote. The text was judged.
pub fn put_string(text: &[u8], at: usize, store: &mut [u8], used: usize) -> CopiedTo
    requires { BytesHere (chars_at 0 (drop at text.now)) store.old used }
    ensures { BytesPut (chars_at 0 (drop at text.now)) at store.old used result store.new }
{
    let mut pos = at;
    let mut end = used;
    // No `for`: a character's size is seen as it is read, and the closing quote is known to come.
    while text[pos] != b'"' {
        let char = known_char(text, pos);
        store[end] = char.bits as u8;
        pos = char.end;
        end += 1;
    }
    CopiedTo {
        pos: pos + 1,
        used: end,
    }
}

// The bytes of a blob whose characters begin at an offset, behind its opening brace. The text was judged.
pub fn put_blob(text: &[u8], at: usize, store: &mut [u8], used: usize) -> CopiedTo
    requires { BytesHere (bytes_at true 0 (drop at text.now)) store.old used }
    ensures { BytesPut (bytes_at true 0 (drop at text.now)) at store.old used result store.new }
{
    let mut pos = at;
    let mut end = used;
    // No `for`: a number's size is seen as it is read, and the closing brace is known to come.
    while text[pos] != b'}' {
        let byte = known_byte(text, behind_gap(pos, end == used));
        store[end] = byte.bits as u8;
        pos = byte.end;
        end += 1;
    }
    CopiedTo {
        pos: pos + 1,
        used: end,
    }
}
