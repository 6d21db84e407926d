// Writes the row and the store bytes of an element that is no list.
ghost use Rattle.std.specs.Prelude.{◌+◌, ◌-◌, ◌≤◌, ◌≡◌, [], ◌∷◌, length, drop};
ghost use Rattle.std.proofs.lemmas.List.Edits.{sets};
ghost use Rattle.list.specs.Limits.{list_limit};
ghost use Rattle.list.specs.RowBytes.{packed};
ghost use Rattle.text.specs.Read.{sign_size};
ghost use Rattle.text_decode.specs.Pieces.{cursor, FixedHere, FixedPut, ValueHere, ValuePut, number_from, int_from, float_from, vocab_from};

use crate::known::{known_hex, known_high, known_int, known_letters, known_sign};
use crate::put::{CopiedTo, put_blob, put_row, put_string};
use list::{Kind, ROW};
use text_value::is_float;

// Where the filling stands: in the text, in the rows and in the store.
#[derive(Clone, Copy)]
pub struct Cursor {
    pub pos: usize,
    pub row: usize,
    pub used: usize,
}

// The row of a string or a blob whose bytes were copied.
fn put_stored(rows: &mut [u8], x: Cursor, code: u32, to: CopiedTo) -> Cursor
    requires { (x.row + 12 ≤ length rows.old) × (x.used ≤ to.used) × (to.used ≤ list_limit) }
    ensures { (rows.new ≡ sets rows.old x.row (packed (code ∷ x.used ∷ (to.used - x.used) ∷ []))) × (result ≡ cursor to.pos (x.row + 12) to.used) }
{
    put_row(rows, x.row, code, x.used as u32, (to.used - x.used) as u32);
    Cursor {
        pos: to.pos,
        row: x.row + ROW,
        used: to.used,
    }
}

// An int.
fn put_int(text: &[u8], x: Cursor, rows: &mut [u8], sign: usize) -> Cursor
    requires { (sign ≡ sign_size (drop x.pos text.now)) × FixedHere (int_from text.now x) x rows.old }
    ensures { FixedPut (int_from text.now x) x rows.old result rows.new }
{
    let int = known_int(text, x.pos, sign);
    put_row(rows, x.row, Kind::INT, int.bits, 0);
    Cursor {
        pos: int.end,
        row: x.row + ROW,
        ..x
    }
}

// A float.
fn put_float(text: &[u8], x: Cursor, rows: &mut [u8], sign: usize) -> Cursor
    requires { (sign ≤ 1) × FixedHere (float_from sign text.now x) x rows.old }
    ensures { FixedPut (float_from sign text.now x) x rows.old result rows.new }
{
    let at = x.pos + sign;
    let high = known_high(text, at, sign);
    put_row(
        rows,
        x.row,
        Kind::FLOAT,
        known_hex(text, at + 9, 8),
        high.bits,
    );
    Cursor {
        pos: high.end,
        row: x.row + ROW,
        ..x
    }
}

// A number: an int or a float.
fn put_number(text: &[u8], x: Cursor, rows: &mut [u8]) -> Cursor
    requires { FixedHere (number_from text.now x) x rows.old }
    ensures { FixedPut (number_from text.now x) x rows.old result rows.new }
{
    let sign = known_sign(text, x.pos);
    if is_float(text, x.pos + sign) {
        return put_float(text, x, rows, sign);
    }
    put_int(text, x, rows, sign)
}

// A vocab, behind its opening bracket.
fn put_vocab(text: &[u8], x: Cursor, rows: &mut [u8]) -> Cursor
    requires { FixedHere (vocab_from text.now x) x rows.old }
    ensures { FixedPut (vocab_from text.now x) x rows.old result rows.new }
{
    let vocab = known_letters(text, x.pos);
    put_row(rows, x.row, Kind::VOCAB, vocab.bits, 0);
    Cursor {
        pos: vocab.end,
        row: x.row + ROW,
        ..x
    }
}

// The element at the cursor. The text was judged.
pub fn put_value(text: &[u8], x: Cursor, rows: &mut [u8], store: &mut [u8]) -> Cursor
    requires { ValueHere text.now x rows.old store.old }
    ensures { ValuePut text.now x rows.old store.old result rows.new store.new }
{
    let at = x.pos;
    let c = text[at];
    let behind = at + 1;
    match c {
        b'"' => {
            let to = put_string(text, behind, store, x.used);
            put_stored(rows, x, Kind::STR, to)
        }
        b'{' => {
            let to = put_blob(text, behind, store, x.used);
            put_stored(rows, x, Kind::BLOB, to)
        }
        b'[' => put_vocab(text, Cursor { pos: behind, ..x }, rows),
        _ => put_number(text, x, rows),
    }
}
