// Writes the rows and the store bytes of elements of one kind, which carry no codes.
ghost use Rattle.std.specs.Prelude.{ℕ, ◌+◌, ◌≤◌, List, length};
ghost use Rattle.list.specs.Kind.{kind_of};
ghost use Rattle.list_decode.specs.Pieces.{Piece, one_number, two_numbers, stored, run, found_run, Here, EachHere, FoundHere, Room, Written};

use crate::put::{Cursor, put_float, put_plain, put_stored};
use list::{Kind, NUMBER, TERMINATOR};
use numbers::u32_at;

// An element as it stands in a typed list.
trait Element: Copy {
    // What it is read from is there.
    ghost here: { Self → List ℕ → ℕ → Type 0 };

    // What it gives.
    ghost gives: { Self → List ℕ → ℕ → ℕ → Piece };

    fn put(self, s: &[u8], x: Cursor, rows: &mut [u8], store: &mut [u8]) -> Cursor
        requires { here self s.now x.pos × Room x (gives self s.now x.used x.pos) rows.old store.old }
        ensures { Written x (gives self s.now x.used x.pos) rows.old store.old result rows.new store.new };
}

// An int or a vocab, by its code. A number is read from a part of its size, so that it needs no test.
#[derive(Clone, Copy)]
struct Number {
    code: u32,
}

impl Element for Number {
    ghost here = { λ e s at. at + 4 ≤ length s };

    ghost gives = { λ e s. one_number s e.code };

    fn put(self, s: &[u8], x: Cursor, rows: &mut [u8], store: &mut [u8]) -> Cursor {
        let next = x.pos + NUMBER;
        put_plain(rows, x, self.code, u32_at(&s[x.pos..next], 0), NUMBER)
    }
}

#[derive(Clone, Copy)]
struct Float;

impl Element for Float {
    ghost here = { λ e s at. at + 8 ≤ length s };

    ghost gives = { λ e s. two_numbers s };

    fn put(self, s: &[u8], x: Cursor, rows: &mut [u8], store: &mut [u8]) -> Cursor {
        let high = x.pos + NUMBER;
        let next = high + NUMBER;
        let low = u32_at(&s[x.pos..high], 0);
        put_float(rows, x, low, u32_at(&s[high..next], 0))
    }
}

// A string or a blob, by its code: the last `tail` bytes that its length counts are not stored.
#[derive(Clone, Copy)]
struct Stored {
    code: u32,
    tail: u32,
}

impl Element for Stored {
    ghost here = { λ e s. Here s e.tail };

    ghost gives = { λ e s. stored s e.code e.tail };

    fn put(self, s: &[u8], x: Cursor, rows: &mut [u8], store: &mut [u8]) -> Cursor {
        put_stored(s, x, self.code, self.tail, rows, store)
    }
}

// n elements of one kind.
fn put_each<E: Element>(
    each: E,
    s: &[u8],
    x: Cursor,
    n: usize,
    rows: &mut [u8],
    store: &mut [u8],
) -> Cursor
    requires { EachHere (E.here each s.now) (E.gives each s.now) n x.used x.pos × Room x (run (E.gives each s.now) n x.used x.pos) rows.old store.old }
    ensures { Written x (run (E.gives each s.now) n x.used x.pos) rows.old store.old result rows.new store.new }
{
    let mut y = x;
    for _ in 0..n {
        y = each.put(s, y, rows, store);
    }
    y
}

// n elements of the kind of a code. The code is matched as the number that the rows take; by `Kind` the case of no kind would be one more.
pub fn put_run(
    s: &[u8],
    x: Cursor,
    code: u32,
    n: usize,
    rows: &mut [u8],
    store: &mut [u8],
) -> Cursor
    requires { FoundHere s.now (kind_of code) n x.pos × Room x (found_run s.now (kind_of code) n x.used x.pos) rows.old store.old }
    ensures { Written x (found_run s.now (kind_of code) n x.used x.pos) rows.old store.old result rows.new store.new }
{
    match code {
        Kind::FLOAT => put_each(Float, s, x, n, rows, store),
        Kind::STR => {
            let string = Stored {
                code,
                tail: TERMINATOR,
            };
            put_each(string, s, x, n, rows, store)
        }
        Kind::BLOB => put_each(Stored { code, tail: 0 }, s, x, n, rows, store),
        _ => put_each(Number { code }, s, x, n, rows, store),
    }
}
