// The entries of a settings list that was judged.
ghost use Rattle.std.specs.Prelude.{◌≡◌, ◌+◌, ◌≤◌, ◌<◌, length};
ghost use Rattle.list.specs.Limits.{list_limit};
ghost use Rattle.list_check.specs.Check.{IsWhole};
ghost use Rattle.setting.specs.Steps.{EntryHere, ElementHere, is_entry, entry_turn, turn_of, span_of, search_area, candidate_count};

use crate::same::is_same;
use list::{LIST_CODE, NUMBER, STRINGS, TERMINATOR};
use numbers::u32_at;

// An entry is a list of strings, and of this many.
const ENTRY_COUNT: u32 = 2;

// Where the bytes of a value stand.
#[derive(Clone, Copy)]
pub struct Span {
    pub offset: usize,
    pub length: usize,
}

// What one element gives: the value of the key, or where the next element begins. Neither is a refusal, so a Result is no plainer.
#[derive(Clone, Copy)]
pub enum Turn {
    Found(Span),
    Next(usize),
}

// Whether the element whose code stands at an offset is a list of two strings. Here and below a number is read from a part of its
// size, so that it needs no test.
fn is_entry(s: &[u8], at: usize) -> bool
    requires { (at + 8 ≤ length s.now) × (length s.now ≤ list_limit) }
    ensures { result ≡ is_entry s.now at }
{
    let second = at + NUMBER;
    if u32_at(&s[at..second], 0) == STRINGS {
        return u32_at(&s[second..second + NUMBER], 0) == ENTRY_COUNT;
    }
    false
}

// An entry at an offset: its value if it has the key, else where it ends.
fn entry_turn(s: &[u8], at: usize, key: &[u8]) -> Turn
    requires { EntryHere s.now at }
    ensures { result ≡ entry_turn s.now key.now at }
{
    let front = at + 2 * NUMBER;
    let first = front + NUMBER;
    let second = first + u32_at(&s[front..first], 0) as usize;
    let value = second + NUMBER;
    let length = u32_at(&s[second..value], 0) as usize;
    if is_same(&s[first..second - TERMINATOR as usize], key) {
        return Turn::Found(Span {
            offset: value,
            length: length - TERMINATOR as usize,
        });
    }
    Turn::Next(value + length)
}

// The element at an offset.
#[tactic(auto, unfolding(crate::specs::Steps::turn_of))]
fn element_turn(s: &[u8], at: usize, key: &[u8]) -> Turn
    requires { ElementHere s.now at }
    ensures { result ≡ turn_of s.now key.now at }
{
    if is_entry(s, at) {
        return entry_turn(s, at, key);
    }
    Turn::Next(list_skip::skip(s, at, 1))
}

// How many elements may be entries: only a list whose elements carry their codes has lists among them.
pub fn candidates(s: &[u8]) -> u32
    ensures { result ≡ candidate_count s.now }
{
    if u32_at(s, 0) == LIST_CODE {
        return u32_at(s, NUMBER);
    }
    0
}

// The value of the first entry with the key among n candidates.
#[inline(never)]
pub fn first_entry(s: &[u8], key: &[u8], n: u32) -> Option<Span>
    requires { IsWhole s.now × (n ≡ candidate_count s.now) × (0 < n) }
    ensures { span_of result ≡ search_area key.now s.now }
{
    let mut pos: usize = 2 * NUMBER;
    for done in 0..n {
        match element_turn(s, pos, key) {
            Turn::Found(value) => return Some(value),
            Turn::Next(next) => pos = next,
        }
    }
    None
}
