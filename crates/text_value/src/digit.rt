// Digits.
ghost use Rattle.std.specs.Prelude.{◌≤◌, ◌≡◌, ltb, drop, length, get_or};
ghost use Rattle.digits.specs.Decimal.{is_decimal, more_decimal, decimal_at};
ghost use Rattle.digits.specs.Fixed.{digit_of};
ghost use Rattle.text_value.specs.Answers.{word_of, Within, AtMost, reach};

use crate::Word;

#[tactic(auto, unfolding(digits::specs::Decimal::is_decimal))]
pub fn is_decimal(c: u8) -> bool
    ensures { result ≡ is_decimal c }
{
    c.is_ascii_digit()
}

// The digits behind the first, whose value is `first`.
fn more_decimal(text: &[u8], at: usize, limit: u32, first: u32) -> Option<Word>
    requires { (1 ≤ at) × (at ≤ length text.now) }
    ensures { word_of result ≡ more_decimal limit first 1 (drop at text.now) }
{
    let most = limit as u64;
    let mut value = first as u64;
    // By index: with `for` over the rest of the text, judging a text of ints takes 2 to 8 in 100 instructions more.
    let mut i = at;
    while i < text.len() {
        let c = text[i];
        if !is_decimal(c) {
            return Some(Word {
                bits: value as u32,
                count: i - at + 1,
            });
        }
        value = 10 * value + (c - b'0') as u64;
        if most < value {
            return None;
        }
        i += 1;
    }
    Some(Word {
        bits: value as u32,
        count: i - at + 1,
    })
}

// A number in decimal without leading zeros, at most the limit, or 9 where the limit is lower.
pub fn decimal_at(text: &[u8], at: usize, limit: u32) -> Option<Word>
    ensures { (word_of result ≡ decimal_at limit (drop at text.now)) × Within at (length text.now) (word_of result) × AtMost (reach limit) (word_of result) }
{
    let c = *text.get(at)?;
    if c == b'0' {
        return Some(Word { bits: 0, count: 1 });
    }
    if is_decimal(c) {
        return more_decimal(text, at + 1, limit, (c - b'0') as u32);
    }
    None
}

// Does a decimal digit stand at an offset?
pub fn is_digit(text: &[u8], at: usize) -> bool
    ensures { result ≡ is_decimal (get_or text.now at 0) }
{
    is_decimal(wire::byte_at(text, at))
}

// The largest byte.
const MOST: u32 = 255;

// A byte in decimal: at most three digits, tried one by one, which is faster than the loop where their number varies.
pub fn byte_decimal_at(text: &[u8], at: usize) -> Option<Word>
    ensures { (word_of result ≡ decimal_at 255 (drop at text.now)) × Within at (length text.now) (word_of result) × AtMost 255 (word_of result) }
{
    if !is_digit(text, at) {
        return None;
    }
    let first = (text[at] - b'0') as u32;
    if (first == 0) | !is_digit(text, at + 1) {
        return Some(Word {
            bits: first,
            count: 1,
        });
    }
    let second = 10 * first + (text[at + 1] - b'0') as u32;
    if !is_digit(text, at + 2) {
        return Some(Word {
            bits: second,
            count: 2,
        });
    }
    let third = 10 * second + (text[at + 2] - b'0') as u32;
    if (MOST < third) | is_digit(text, at + 3) {
        return None;
    }
    Some(Word {
        bits: third,
        count: 3,
    })
}

// Is it one of `0` to `9` and `a` to `f`?
pub fn is_hex(c: u8) -> bool
    ensures { result ≡ ltb (digit_of c) 16 }
{
    is_decimal(c) | ((b'a' <= c) & (c <= b'f'))
}
