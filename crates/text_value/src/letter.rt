// A vocab's letters, and the characters of a string.
ghost use Rattle.std.specs.Prelude.{◌+◌, ◌≡◌, not, ◌&&◌, leb, drop, length};
ghost use Rattle.text.specs.Text.{is_printed, is_marked};
ghost use Rattle.text.specs.Form.{is_letter};
ghost use Rattle.text.specs.Read.{vocab_at, escape_at, octal_byte};
ghost use Rattle.text_value.specs.Answers.{word_of, Within, AtMost};

use crate::Word;

// The most letters of a vocab.
const MOST: usize = 4;

// A character that a vocab may have.
#[tactic(auto, unfolding(text::specs::Form::is_letter))]
pub fn is_letter(c: u8) -> bool
    ensures { result ≡ is_letter c }
{
    c.is_ascii_graphic() & !((c == b'[') | (c == b']'))
}

// A vocab behind its opening bracket: one to four letters, lowest first, and the closing bracket.
pub fn vocab_at(text: &[u8], at: usize) -> Option<Word>
    ensures { (word_of result ≡ vocab_at (drop at text.now)) × Within at (length text.now) (word_of result) }
{
    // The letters come one by one and may be fewer than four, so they are added up and not taken as an array of four bytes.
    let mut bits: u64 = 0;
    let mut unit: u64 = 1;
    for (i, c) in text.get(at..)?.iter().enumerate() {
        if *c == b']' {
            if i == 0 {
                return None;
            }
            return Some(Word {
                bits: bits as u32,
                count: i + 1,
            });
        }
        if (i == MOST) | !is_letter(*c) {
            return None;
        }
        bits = bits + *c as u64 * unit;
        unit = unit * 256;
    }
    None
}

// A byte that a string's text may show.
#[tactic(auto, unfolding(text::specs::Text::is_printed))]
pub fn is_printed(c: u8) -> bool
    ensures { result ≡ is_printed c }
{
    (b' ' <= c) & (c <= b'~')
}

// A quote or a backslash.
#[tactic(auto, unfolding(text::specs::Text::is_marked))]
pub fn is_marked(c: u8) -> bool
    ensures { result ≡ is_marked c }
{
    (c == b'"') | (c == b'\\')
}

// A character of a string that stands for itself.
pub fn is_plain(c: u8) -> bool
    ensures { result ≡ (is_printed c && not (is_marked c)) }
{
    is_printed(c) & !is_marked(c)
}

// The byte of an octal escape; `b` is the number of its three digits.
fn octal_byte(b: u32) -> Option<Word>
    ensures { word_of result ≡ octal_byte b }
{
    if (b == 0) | (256 <= b) {
        return None;
    }
    if is_printed(b as u8) {
        return None;
    }
    Some(Word { bits: b, count: 4 })
}

// Is it one of 0 to 7?
fn is_octal(c: u8) -> bool
    ensures { result ≡ (leb 48 c && leb c 55) }
{
    (b'0' <= c) & (c <= b'7')
}

// The byte of an escape, behind its backslash, which is counted.
pub fn escape_at(text: &[u8], at: usize) -> Option<Word>
    ensures { (word_of result ≡ escape_at (drop at text.now)) × Within at (length text.now + 1) (word_of result) × AtMost 255 (word_of result) }
{
    let c = *text.get(at)?;
    if is_marked(c) {
        return Some(Word {
            bits: c as u32,
            count: 2,
        });
    }
    if text.len() - at < 3 {
        return None;
    }
    let b = text[at + 1];
    let d = text[at + 2];
    if is_octal(c) & (is_octal(b) & is_octal(d)) {
        // 48 is a multiple of 8, so what is left of a digit's character by 8 is its value.
        return octal_byte(64 * (c % 8) as u32 + 8 * (b % 8) as u32 + (d % 8) as u32);
    }
    None
}
