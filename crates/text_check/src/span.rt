// How many bytes a string or a blob has.
ghost use Rattle.std.specs.Prelude.{◌≡◌, true, ◌+◌, ◌<◌, drop, length};
ghost use Rattle.digits.specs.Read.{and_read};
ghost use Rattle.text.specs.Read.{escape_at, char_at, chars_at, bytes_at, byte_at};
ghost use Rattle.text_value.specs.Answers.{Within};
ghost use Rattle.text_check.specs.Answers.{size_read, span_of, counted};

use text_value::{blob_byte_at, escape_at, is_plain};

// The bytes that characters stand for, and the characters.
#[derive(Clone, Copy)]
pub struct Span {
    pub stored: usize,
    pub count: usize,
}

// The characters of an escape at its backslash.
fn escape_size(text: &[u8], at: usize) -> Option<usize>
    requires { at < length text.now }
    ensures { (result ≡ size_read (escape_at (drop (at + 1) text.now))) × Within at (length text.now) (escape_at (drop (at + 1) text.now)) }
{
    Some(escape_at(text, at + 1)?.count)
}

// The characters of a string's byte.
fn char_size(text: &[u8], at: usize) -> Option<usize>
    requires { at < length text.now }
    ensures { (result ≡ size_read (char_at (drop at text.now))) × Within at (length text.now) (char_at (drop at text.now)) }
{
    let c = text[at];
    if c == b'\\' {
        return escape_size(text, at);
    }
    if is_plain(c) {
        return Some(1);
    }
    None
}

// A string behind its opening quote. A byte has one to four characters, so no `for` goes over them.
pub fn string_span(text: &[u8], at: usize) -> Option<Span>
    ensures { (span_of result ≡ and_read (chars_at 0 (drop at text.now)) counted) × Within at (length text.now) (span_of result) }
{
    let mut i = at;
    let mut stored = 0;
    while i < text.len() {
        if text[i] == b'"' {
            return Some(Span {
                stored,
                count: i - at + 1,
            });
        }
        i += char_size(text, i)?;
        stored += 1;
    }
    None
}

// The characters of a blob's byte with the space before it. `first` is the definition's own argument: the first byte has no space.
fn byte_size(text: &[u8], at: usize, first: bool) -> Option<usize>
    ensures { (result ≡ size_read (byte_at first (drop at text.now))) × Within at (length text.now) (byte_at first (drop at text.now)) }
{
    Some(blob_byte_at(text, at, first)?.count)
}

// A blob behind its opening brace. A byte has one to four characters, so no `for` goes over them. It is not one function with `string_span`:
// that would take the reading of a byte as a closure and a law that ties it to the definition, which is longer than both.
pub fn blob_span(text: &[u8], at: usize) -> Option<Span>
    ensures { (span_of result ≡ and_read (bytes_at true 0 (drop at text.now)) counted) × Within at (length text.now) (span_of result) }
{
    let mut i = at;
    let mut stored = 0;
    while i < text.len() {
        if text[i] == b'}' {
            return Some(Span {
                stored,
                count: i - at + 1,
            });
        }
        i += byte_size(text, i, stored == 0)?;
        stored += 1;
    }
    None
}
