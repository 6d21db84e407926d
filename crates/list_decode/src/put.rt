// Writes one row and its store bytes.
ghost use Rattle.std.specs.Prelude.{◌≡◌, [], ◌∷◌, ◌+◌, ◌^◌, ◌<◌};
ghost use Rattle.std.proofs.lemmas.List.Edits.{sets};
ghost use Rattle.list.specs.Kind.{code_of};
ghost use Rattle.list.specs.RowBytes.{packed};
ghost use Rattle.list_decode.specs.Pieces.{plain, stored, Fits, Here, Room, Written};

use list::{Kind, NUMBER, ROW};
use numbers::{put_u32, put_u64, u32_at};

// Where the filling stands: in the bytes, in the rows and in the store. It stays beside these three: each contract says what was written to
// which area from which place on, and would name the fields of one struct of all before and after.
#[derive(Clone, Copy)]
pub struct Cursor {
    pub pos: usize,
    pub row: usize,
    pub used: usize,
}

// The part that takes the row has its size, so that the compiler leaves no test of room, and no array.
pub fn put_row(rows: &mut [u8], at: usize, code: u32, second: u32, third: u32)
    requires { Fits rows.old at (packed (code ∷ second ∷ third ∷ [])) }
    ensures { rows.new ≡ sets rows.old at (packed (code ∷ second ∷ third ∷ [])) }
{
    rows[at..at + ROW].copy_from_slice(&list::row_bytes(code, second, third));
}

// A row whose third number is 0. The second is written with it as one number of 8 bytes, so that a row takes two moves.
pub fn put_single(rows: &mut [u8], at: usize, code: u32, second: u32)
    requires { Fits rows.old at (packed (code ∷ second ∷ 0 ∷ [])) }
    ensures { rows.new ≡ sets rows.old at (packed (code ∷ second ∷ 0 ∷ [])) }
{
    let row = &mut rows[at..at + ROW];
    put_u32(&mut *row, 0, code);
    put_u64(row, NUMBER, u64::from(second));
}

// An int, a vocab or a list: one number, read from `size` bytes.
pub fn put_plain(rows: &mut [u8], x: Cursor, code: u32, second: u32, size: usize) -> Cursor
    requires { Fits rows.old x.row (packed (code ∷ second ∷ 0 ∷ [])) × (x.pos + size < 2 ^ 64) }
    ensures { Written x (plain code second 0 (x.pos + size)) rows.old [] result rows.new [] }
{
    put_single(rows, x.row, code, second);
    Cursor {
        pos: x.pos + size,
        row: x.row + ROW,
        ..x
    }
}

// A float, by its two halves.
pub fn put_float(rows: &mut [u8], x: Cursor, low: u32, high: u32) -> Cursor
    requires { Fits rows.old x.row (packed (code_of Kind.Float ∷ low ∷ high ∷ [])) × (x.pos + 8 < 2 ^ 64) }
    ensures { Written x (plain (code_of Kind.Float) low high (x.pos + 8)) rows.old [] result rows.new [] }
{
    put_row(rows, x.row, Kind::FLOAT, low, high);
    Cursor {
        pos: x.pos + 2 * NUMBER,
        row: x.row + ROW,
        ..x
    }
}

// A string or a blob, whose length stands at the cursor: the last `tail` bytes that it counts are not stored.
pub fn put_stored(
    s: &[u8],
    x: Cursor,
    code: u32,
    tail: u32,
    rows: &mut [u8],
    store: &mut [u8],
) -> Cursor
    requires { Here s.now tail x.pos × Room x (stored s.now code tail x.used x.pos) rows.old store.old }
    ensures { Written x (stored s.now code tail x.used x.pos) rows.old store.old result rows.new store.new }
{
    let at = x.pos;
    let first = at + NUMBER;
    let length = u32_at(&s[at..first], 0);
    let stored = length - tail;
    put_row(rows, x.row, code, x.used as u32, stored);
    let end = x.used + stored as usize;
    // By `as`: there is no `From<u32>` for `usize`. By `copy_short` for speed: docs/DECISIONS.md, "Bytes are copied by way of an array".
    wire::copy_short(&mut store[x.used..end], &s[first..first + stored as usize]);
    Cursor {
        pos: first + length as usize,
        row: x.row + ROW,
        used: end,
    }
}
