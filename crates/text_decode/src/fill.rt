// Writes the rows and the store bytes of a text that was judged. While a list is open, its row counts the elements so far and holds in its
// third number where the row of the list around it stands: so no stack is needed, however deep lists stand in one another.
ghost use Rattle.std.specs.Prelude.{◌+◌, ◌≤◌, ◌<◌, ◌≡◌, length};
ghost use Rattle.text_decode.specs.Pieces.{Countable, counted_one, closed_at, around_at, behind_space, Judged, Filled};
ghost use Rattle.text_decode.specs.Stage.{Ready, ReadyElement, Goes};

use crate::element::{Cursor, put_value};
use crate::put::put_row;
use list::{LIST_CODE, NUMBER, ROW};
use numbers::{put_u32, u32_at};

// Where the filling stands: in the text, in the rows and in the store, and the row of the innermost open list. The areas are no part of it: `bump`,
// `close_list` and put.rt's functions change only one of them, and would have to promise that the other stays.
#[derive(Clone, Copy)]
pub struct Place {
    pub pos: usize,
    pub row: usize,
    pub used: usize,
    pub outer: usize,
}

// One element more in the list whose row stands at an offset. The part that is read and written has a number's size, so that no test of
// room is left.
fn bump(rows: &mut [u8], outer: usize)
    requires { Countable rows.old outer }
    ensures { rows.new ≡ counted_one rows.old outer }
{
    let at = outer + NUMBER;
    let end = at + NUMBER;
    let count = u32_at(&rows[at..end], 0);
    put_u32(&mut rows[at..end], 0, count + 1);
}

// Closes the list whose row stands at an offset; answers the offset of the row of the list around it.
fn close_list(rows: &mut [u8], outer: usize) -> usize
    requires { outer + 12 ≤ length rows.old }
    ensures { (rows.new ≡ closed_at rows.old outer) × (result ≡ around_at rows.old outer) }
{
    let at = outer + 2 * NUMBER;
    let end = at + NUMBER;
    let around = u32_at(&rows[at..end], 0) as usize;
    put_u32(&mut rows[at..end], 0, 0);
    around
}

// Behind the space before an element.
fn behind_space(text: &[u8], pos: usize) -> usize
    requires { pos < length text.now }
    ensures { result ≡ behind_space text.now pos }
{
    if text[pos] == b' ' {
        return pos + 1;
    }
    pos
}

// An element, with the space before it: of a list its row, which holds where the row of the list around it stands.
fn put_element(text: &[u8], x: Place, rows: &mut [u8], store: &mut [u8]) -> Place
    requires { ReadyElement text.now x rows.old store.old }
    ensures { Goes text.now x rows.old store.old result rows.new store.new }
{
    let at = behind_space(text, x.pos);
    bump(rows, x.outer);
    if text[at] == b'(' {
        put_row(rows, x.row, LIST_CODE, 0, x.outer as u32);
        return Place {
            pos: at + 1,
            row: x.row + ROW,
            outer: x.row,
            ..x
        };
    }
    let y = put_value(
        text,
        Cursor {
            pos: at,
            row: x.row,
            used: x.used,
        },
        rows,
        store,
    );
    Place {
        pos: y.pos,
        row: y.row,
        used: y.used,
        outer: x.outer,
    }
}

// A closing bracket, or an element.
fn put_token(text: &[u8], x: Place, rows: &mut [u8], store: &mut [u8]) -> Place
    requires { Ready text.now x rows.old store.old }
    ensures { Goes text.now x rows.old store.old result rows.new store.new }
{
    let at = x.pos;
    if text[at] == b')' {
        let outer = close_list(rows, x.outer);
        return Place {
            pos: at + 1,
            outer,
            ..x
        };
    }
    put_element(text, x, rows, store)
}

// How much was written: rows, and store bytes.
#[derive(Clone, Copy)]
pub struct Amounts {
    pub rows: u32,
    pub stored: usize,
}

pub fn fill(text: &[u8], rows: &mut [u8], store: &mut [u8]) -> Amounts
    requires { Judged text.now rows.old store.old }
    ensures { Filled text.now rows.old store.old result rows.new store.new }
{
    put_row(rows, 0, LIST_CODE, 0, 0);
    let mut x = Place {
        pos: 0,
        row: ROW,
        used: 0,
        outer: 0,
    };
    // No `for`: how many characters a token takes is seen as it is read.
    while x.pos < text.len() {
        x = put_token(text, x, rows, store);
    }
    Amounts {
        rows: (x.row / ROW) as u32,
        stored: x.used,
    }
}
