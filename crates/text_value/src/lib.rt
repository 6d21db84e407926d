// Reading what a list's text is made of: numbers, vocabs, a blob's bytes and a string's escapes, each at an offset. The offset may be past
// the end, where nothing stands; so a reader takes it beside the text, and not the rest of the text as a slice.
#![tactic(auto)]

mod blob;
mod digit;
mod float;
mod int;
mod letter;

ghost use Rattle.std.specs.Prelude.{◌+◌, ◌-◌, ◌≤◌, ◌≡◌, eqb, drop, length, get_or};
ghost use Rattle.text.specs.Read.{sign_size, number_at};
ghost use Rattle.text_value.specs.Answers.{number_of, Within};

pub use blob::blob_byte_at;
pub use digit::is_digit;
use float::{Halves, float_at};
use int::int_at;
pub use letter::{escape_at, is_letter, is_marked, is_plain, is_printed, vocab_at};

// A number of 32 bits and its characters.
#[derive(Clone, Copy)]
pub struct Word {
    pub bits: u32,
    pub count: usize,
}

// Two kinds of value, so no Option.
#[derive(Clone, Copy)]
pub enum NumberRead {
    Int { bits: u32, count: usize },
    Float { low: u32, high: u32, count: usize },
}

// A minus is one character.
fn sign_size(text: &[u8], at: usize) -> usize
    ensures { (result ≡ sign_size (drop at text.now)) × (result ≤ 1) × (result ≤ length text.now - at) }
{
    if wire::byte_at(text, at) == b'-' {
        return 1;
    }
    0
}

// Behind the sign and a digit a float has an x.
pub fn is_float(text: &[u8], at: usize) -> bool
    ensures { result ≡ eqb (get_or text.now (at + 1) 0) 120 }
{
    at < text.len() && wire::byte_at(text, at + 1) == b'x'
}

// An int or a float.
pub fn number_at(text: &[u8], at: usize) -> Option<NumberRead>
    ensures { (number_of result ≡ number_at (drop at text.now)) × Within at (length text.now) (number_of result) }
{
    if text.len() <= at {
        return None;
    }
    let sign = sign_size(text, at);
    if is_float(text, at + sign) {
        let Halves { low, high, count } = float_at(text, at + sign, sign as u32)?;
        return Some(NumberRead::Float { low, high, count });
    }
    let Word { bits, count } = int_at(text, at)?;
    Some(NumberRead::Int { bits, count })
}
