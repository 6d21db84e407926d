// Floats: 0x, a digit, a point, 13 digits, p and the scale.
ghost use Rattle.std.specs.Prelude.{◌+◌, ◌-◌, ◌≤◌, ◌<◌, ◌^◌, ◌≡◌, drop, length};
ghost use Rattle.digits.specs.Read.{got};
ghost use Rattle.digits.specs.Fixed.{fixed_at};
ghost use Rattle.text.specs.Read.{plus_scale, minus_scale, scale_at, small_scale, exponent_from, float_from, float_at};
ghost use Rattle.text_value.specs.Answers.{word_of, halves_in, part_of, Within, AtMost, Below};

use crate::Word;
use crate::digit::{decimal_at, is_hex};

// A float's halves and its characters.
#[derive(Clone, Copy)]
pub struct Halves {
    pub low: u32,
    pub high: u32,
    pub count: usize,
}

// The bits of the exponent 0.
const BIAS: u32 = 1023;

// `width` hexadecimal digits. No branch depends on which digit it is, since that cannot be foreseen: the four low bits of a letter are 9
// less than its value, and its two high bits are 1.
fn hex_at(text: &[u8], at: usize, width: usize) -> Option<u32>
    requires { (at + width ≤ length text.now) × (width ≤ 8) }
    ensures { (part_of result ≡ fixed_at 16 width (drop at text.now)) × Below (16 ^ width) (part_of result) }
{
    let mut value: u64 = 0;
    let mut good = true;
    for c in &text[at..at + width] {
        good = good & is_hex(*c);
        value = 16 * value + (*c % 16 + 9 * (*c / 64)) as u64;
    }
    if !good {
        return None;
    }
    Some(value as u32)
}

fn plus_scale(read: Word) -> Word
    requires { (read.count < 2 ^ 64 - 1) × (read.bits ≤ 1023) }
    ensures { got result.bits result.count ≡ plus_scale read.bits read.count }
{
    Word {
        bits: BIAS + read.bits,
        count: read.count + 1,
    }
}

fn minus_scale(read: Word) -> Option<Word>
    requires { (read.count < 2 ^ 64 - 1) × (read.bits ≤ 1022) }
    ensures { word_of result ≡ minus_scale read.bits read.count }
{
    if read.bits == 0 {
        return None;
    }
    Some(Word {
        bits: BIAS - read.bits,
        count: read.count + 1,
    })
}

// The exponent's bits, behind the p.
fn scale_at(text: &[u8], at: usize) -> Option<Word>
    ensures { (word_of result ≡ scale_at (drop at text.now)) × Within at (length text.now) (word_of result) × AtMost 2046 (word_of result) }
{
    let c = wire::byte_at(text, at);
    if c == b'+' {
        return Some(plus_scale(decimal_at(text, at + 1, BIAS)?));
    }
    if c == b'-' {
        return minus_scale(decimal_at(text, at + 1, BIAS - 1)?);
    }
    None
}

// The scale that a fraction must have behind 0x0.
fn small_scale(fraction: u32, low: u32) -> u32
    ensures { result ≡ small_scale fraction low }
{
    if (low == 0) & (fraction == 0) {
        return BIAS;
    }
    1
}

fn exponent_from(lead: u8, fraction: u32, low: u32, scale: u32) -> Option<u32>
    ensures { (part_of result ≡ exponent_from lead fraction low scale) × Below (scale + 1) (part_of result) }
{
    if lead == b'1' {
        return Some(scale);
    }
    if (lead == b'0') & (scale == small_scale(fraction, low)) {
        return Some(0);
    }
    None
}

// The float of its parts; `scale` has the characters behind the p.
fn float_of(sign: u32, lead: u8, fraction: u32, low: u32, scale: Word) -> Option<Halves>
    requires { (sign ≤ 1) × (fraction < 2 ^ 20) × (sign + 18 + scale.count ≤ 2 ^ 64 - 1) × (scale.bits ≤ 2046) }
    ensures { halves_in result ≡ float_from sign lead fraction low scale.bits scale.count }
{
    let exponent = exponent_from(lead, fraction, low, scale.bits)?;
    Some(Halves {
        low,
        high: sign * 0x8000_0000 + (exponent * 0x10_0000 + fraction),
        count: sign as usize + 18 + scale.count,
    })
}

// A float behind its sign.
pub fn float_at(text: &[u8], at: usize, sign: u32) -> Option<Halves>
    requires { (at ≤ length text.now) × (sign ≤ 1) × (sign ≤ at) }
    ensures { halves_in result ≡ float_at sign (drop at text.now) }
{
    if text.len() - at < 18 {
        return None;
    }
    if !((text[at] == b'0') & ((text[at + 3] == b'.') & (text[at + 17] == b'p'))) {
        return None;
    }
    let fraction = hex_at(text, at + 4, 5)?;
    let low = hex_at(text, at + 9, 8)?;
    let scale = scale_at(text, at + 18)?;
    float_of(sign, text[at + 2], fraction, low, scale)
}
