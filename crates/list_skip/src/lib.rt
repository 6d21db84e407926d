// Stepping over elements of a list that was judged: where the next one begins. Nothing is judged again and nothing is written.
#![tactic(auto)]

ghost use Rattle.std.specs.Prelude.{◌≡◌, ◌+◌, ◌-◌, ◌*◌, ◌≤◌, ◌<◌, ◌^◌, length};
ghost use Rattle.list.specs.Limits.{list_limit};
ghost use Rattle.list.specs.Kind.{kind_of, list_code};
ghost use Rattle.list_skip.specs.Skip.{run_end, stride, list_stride, stride_at, skip_from, elements_end};

use list::{BLOBS, FLOATS, INTS, Kind, LIST_LIMIT, NUMBER, STRINGS, VOCABS};
use numbers::u32_at;

// What stands at the code of an element: where the next code stands, and how many elements of a list begin there.
#[derive(Clone, Copy)]
struct Stride {
    next: usize,
    opens: usize,
}

// The end of n strings or blobs, each a length and what that counts. Past the end of the bytes there is none.
fn run_end(s: &[u8], at: usize, n: u32) -> usize
    ensures { result ≡ run_end s.now n at }
{
    let mut pos = at;
    for done in 0..n {
        if s.len() <= pos {
            return pos;
        }
        pos = pos + NUMBER + u32_at(s, pos) as usize;
    }
    pos
}

// An element behind which the next code stands.
fn up_to(next: usize) -> Stride
    ensures { result ≡ stride next 0 }
{
    Stride { next, opens: 0 }
}

// A typed list is stepped over at once, of any other list its code and its count. Its elements stand from `first` on.
fn list_stride(s: &[u8], code: u32, n: u32, first: usize) -> Stride
    requires { first + 8 * n < 2 ^ 64 }
    ensures { result ≡ list_stride s.now (kind_of (code - list_code)) n first }
{
    match code {
        INTS => up_to(first + NUMBER * n as usize),
        VOCABS => up_to(first + NUMBER * n as usize),
        FLOATS => up_to(first + 2 * NUMBER * n as usize),
        STRINGS => up_to(run_end(s, first, n)),
        BLOBS => up_to(run_end(s, first, n)),
        _ => Stride {
            next: first,
            opens: n as usize,
        },
    }
}

// A value is stepped over at once.
fn stride_at(s: &[u8], at: usize) -> Stride
    requires { at < length s.now }
    ensures { result ≡ stride_at s.now at }
{
    let code = u32_at(s, at);
    let n = u32_at(s, at + NUMBER);
    let next = at + 2 * NUMBER;
    match code {
        Kind::INT => up_to(next),
        Kind::VOCAB => up_to(next),
        Kind::FLOAT => up_to(next + NUMBER),
        Kind::STR => up_to(next + n as usize),
        Kind::BLOB => up_to(next + n as usize),
        _ => list_stride(s, code, n, next),
    }
}

// Elements of inner lists are counted with those still to come, so that nothing calls itself; no range counts what is left. It is a
// call of its own: the loop of the settings' search takes more instructions with it compiled in.
#[inline(never)]
fn skip_in(s: &[u8], at: usize, n: u32) -> usize
    requires { length s.now ≤ list_limit }
    ensures { result ≡ skip_from list_limit s.now n at }
{
    let mut pos = at;
    let mut left = n as usize;
    while 0 < left {
        if s.len() <= pos {
            return pos;
        }
        let i = stride_at(s, pos);
        left = left - 1 + i.opens;
        pos = i.next;
    }
    pos
}

// The offset behind n elements that follow their codes, the first of them at an offset.
pub fn skip(s: &[u8], at: usize, n: u32) -> usize
    ensures { result ≡ elements_end s.now n at }
{
    skip_in(&s[..s.len().min(LIST_LIMIT)], at, n)
}
