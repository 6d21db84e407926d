// Reads what was judged before: every test that judging makes is known to pass, and is left out. The text and the offset are two parameters, as
// for text_value's readers, whose definitions these answers cite.
ghost use Rattle.std.specs.Prelude.{◌+◌, ◌-◌, ◌^◌, ◌≤◌, ◌<◌, ◌≡◌, true, cond, eqb, length, drop};
ghost use Rattle.std.proofs.Math.Option.{some};
ghost use Rattle.digits.specs.Decimal.{decimal_at};
ghost use Rattle.digits.specs.Fixed.{digit_of, fixed_at};
ghost use Rattle.text.specs.Read.{sign_size, scale_at, int_at, vocab_at, escape_at, char_at, float_at};
ghost use Rattle.text_decode.specs.Pieces.{is_got, is_some, KnownAs, known_decimal, known_high};

use text_value::{is_digit, is_marked};

// A number of 32 bits, and the place behind its characters.
#[derive(Drop)]
pub struct Known {
    pub bits: u32,
    pub end: usize,
}

// A number in decimal; behind a leading zero nothing is read.
pub fn known_decimal(text: &[u8], at: usize) -> Known
    requires { is_got (known_decimal (drop at text.now)) ≡ true }
    ensures { KnownAs (known_decimal (drop at text.now)) at result }
{
    if text[at] == b'0' {
        return Known {
            bits: 0,
            end: at + 1,
        };
    }
    let mut bits: u32 = 0;
    let mut end = at;
    // No `for`: the end of the digits is part of the answer.
    while is_digit(text, end) {
        bits = 10 * bits + (text[end] - b'0') as u32;
        end += 1;
    }
    Known { bits, end }
}

// A byte in decimal, its digits tried one by one.
pub fn known_byte(text: &[u8], at: usize) -> Known
    requires { is_got (decimal_at 255 (drop at text.now)) ≡ true }
    ensures { KnownAs (decimal_at 255 (drop at text.now)) at result }
{
    let first = (text[at] - b'0') as u32;
    if (first == 0) | !is_digit(text, at + 1) {
        return Known {
            bits: first,
            end: at + 1,
        };
    }
    let second = 10 * first + (text[at + 1] - b'0') as u32;
    if !is_digit(text, at + 2) {
        return Known {
            bits: second,
            end: at + 2,
        };
    }
    Known {
        bits: 10 * second + (text[at + 2] - b'0') as u32,
        end: at + 3,
    }
}

// An int; `sign` is 1 where a minus stands before it.
pub fn known_int(text: &[u8], at: usize, sign: usize) -> Known
    requires { (sign ≡ sign_size (drop at text.now)) × (is_got (int_at (drop at text.now)) ≡ true) }
    ensures { KnownAs (int_at (drop at text.now)) at result }
{
    let number = known_decimal(text, at + sign);
    if sign == 0 {
        return number;
    }
    Known {
        bits: (0x1_0000_0000 - number.bits as u64) as u32,
        end: number.end,
    }
}

fn hex_digit(c: u8) -> u32
    requires { digit_of c < 16 }
    ensures { result ≡ digit_of c }
{
    (c % 16 + 9 * (c / 64)) as u32
}

// `width` hexadecimal digits.
pub fn known_hex(text: &[u8], at: usize, width: usize) -> u32
    requires { (width ≤ 8) × (is_some (fixed_at 16 width (drop at text.now)) ≡ true) }
    ensures { some result ≡ fixed_at 16 width (drop at text.now) }
{
    let mut value: u64 = 0;
    for i in 0..width {
        value = 16 * value + hex_digit(text[at + i]) as u64;
    }
    value as u32
}

// The bits of the exponent 0.
const BIAS: u32 = 1023;

// The exponent's bits, behind the p.
fn known_scale(text: &[u8], at: usize) -> Known
    requires { is_got (scale_at (drop at text.now)) ≡ true }
    ensures { KnownAs (scale_at (drop at text.now)) at result }
{
    let number = known_decimal(text, at + 1);
    if text[at] == b'+' {
        return Known {
            bits: BIAS + number.bits,
            end: number.end,
        };
    }
    Known {
        bits: BIAS - number.bits,
        end: number.end,
    }
}

// The exponent bits of a float that starts 0x0. or 0x1.
fn known_exponent(lead: u8, scale: u32) -> u32
    ensures { result ≡ cond (eqb lead 49) scale 0 }
{
    if lead == b'1' {
        return scale;
    }
    0
}

// The high half of a float behind its sign.
pub fn known_high(text: &[u8], at: usize, sign: usize) -> Known
    requires { (sign ≤ 1) × (is_got (float_at sign (drop at text.now)) ≡ true) }
    ensures { KnownAs (known_high sign (drop at text.now)) at result }
{
    let scale = known_scale(text, at + 18);
    let exponent = known_exponent(text[at + 2], scale.bits);
    let fraction = known_hex(text, at + 4, 5);
    Known {
        bits: sign as u32 * 0x8000_0000 + (exponent * 0x10_0000 + fraction),
        end: scale.end,
    }
}

// A vocab's bits behind its opening bracket.
pub fn known_letters(text: &[u8], at: usize) -> Known
    requires { is_got (vocab_at (drop at text.now)) ≡ true }
    ensures { KnownAs (vocab_at (drop at text.now)) at result }
{
    // The letters come one by one and may be fewer than four, so they are added up and not taken as an array of four bytes.
    let mut bits: u64 = 0;
    let mut unit: u64 = 1;
    let mut end = at;
    // No `for`: the closing bracket is known to come, and its place is part of the answer.
    while text[end] != b']' {
        bits = bits + text[end] as u64 * unit;
        unit = unit * 256;
        end += 1;
    }
    Known {
        bits: bits as u32,
        end: end + 1,
    }
}

// The byte of an escape at its backslash, and the place behind it.
fn known_escape(text: &[u8], at: usize) -> Known
    requires { is_got (escape_at (drop (at + 1) text.now)) ≡ true }
    ensures { KnownAs (escape_at (drop (at + 1) text.now)) at result }
{
    let c = text[at + 1];
    if is_marked(c) {
        return Known {
            bits: c as u32,
            end: at + 2,
        };
    }
    let high = 64 * (c - b'0') as u32;
    let low = 8 * (text[at + 2] - b'0') as u32 + (text[at + 3] - b'0') as u32;
    Known {
        bits: high + low,
        end: at + 4,
    }
}

// A character of a string: its byte, and the place behind it.
pub fn known_char(text: &[u8], at: usize) -> Known
    requires { is_got (char_at (drop at text.now)) ≡ true }
    ensures { KnownAs (char_at (drop at text.now)) at result }
{
    let c = text[at];
    if c == b'\\' {
        return known_escape(text, at);
    }
    Known {
        bits: c as u32,
        end: at + 1,
    }
}

// Behind the space before a byte of a blob; the first has none, and `first` is the definition's own argument.
pub fn behind_gap(at: usize, first: bool) -> usize
    requires { at < 2 ^ 64 - 1 }
    ensures { result ≡ cond first at (at + 1) }
{
    if first {
        return at;
    }
    at + 1
}

// A minus is one character.
pub fn known_sign(text: &[u8], at: usize) -> usize
    requires { at < length text.now }
    ensures { result ≡ sign_size (drop at text.now) }
{
    if text[at] == b'-' {
        return 1;
    }
    0
}
