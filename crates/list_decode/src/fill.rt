// Writes the rows and the store bytes of a list that was judged.
ghost use Rattle.list.specs.Kind.{kind_of};
ghost use Rattle.list_decode.specs.Pieces.{element_piece, list_piece, Written, Ready, ReadyTyped, Judged, Filled};

use crate::put::{Cursor, put_float, put_plain, put_stored};
use crate::run::put_run;
use list::{Kind, LIST_CODE, NUMBER, ROW, TERMINATOR};
use numbers::u32_at;

// A typed list: its row, then its elements.
fn put_typed(s: &[u8], x: Cursor, code: u32, n: u32, rows: &mut [u8], store: &mut [u8]) -> Cursor
    requires { ReadyTyped s.now code n x rows.old store.old }
    ensures { Written x (list_piece s.now (kind_of code) n x.used x.pos) rows.old store.old result rows.new store.new }
{
    let y = put_plain(rows, x, LIST_CODE, n, 2 * NUMBER);
    put_run(s, y, code, n as usize, rows, store)
}

// An element that follows its code. A number is read from a part of its size, so that it needs no test.
fn put_element(s: &[u8], x: Cursor, rows: &mut [u8], store: &mut [u8]) -> Cursor
    requires { Ready s.now x rows.old store.old }
    ensures { Written x (element_piece s.now x.used x.pos) rows.old store.old result rows.new store.new }
{
    let at = x.pos;
    let first = at + NUMBER;
    let third = first + NUMBER;
    let code = u32_at(&s[at..first], 0);
    let behind = Cursor { pos: first, ..x };
    let second = u32_at(&s[first..third], 0);
    match code {
        Kind::INT => put_plain(rows, behind, Kind::INT, second, NUMBER),
        Kind::VOCAB => put_plain(rows, behind, Kind::VOCAB, second, NUMBER),
        Kind::FLOAT => put_float(rows, behind, second, u32_at(&s[third..third + NUMBER], 0)),
        Kind::STR => put_stored(s, behind, Kind::STR, TERMINATOR, rows, store),
        Kind::BLOB => put_stored(s, behind, Kind::BLOB, 0, rows, store),
        LIST_CODE => put_plain(rows, x, LIST_CODE, second, 2 * NUMBER),
        _ => put_typed(s, x, code - LIST_CODE, second, rows, store),
    }
}

// How much was written: rows, and store bytes.
#[derive(Clone, Copy)]
pub struct Amounts {
    pub rows: u32,
    pub stored: usize,
}

// The rows and the store bytes of the list of these bytes; answers how many of each. An element takes its code and a number
// or more.
pub fn fill(s: &[u8], rows: &mut [u8], store: &mut [u8]) -> Amounts
    requires { Judged s.now rows.old store.old }
    ensures { Filled s.now rows.old store.old result rows.new store.new }
{
    let mut x = Cursor {
        pos: 0,
        row: 0,
        used: 0,
    };
    // No `for`: how many bytes an element takes is seen as it is read.
    while 2 * NUMBER <= s.len() - x.pos {
        x = put_element(s, x, rows, store);
    }
    let count = (x.row / ROW) as u32;
    Amounts {
        rows: count,
        stored: x.used,
    }
}
