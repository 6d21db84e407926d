// One token: a bracket, or an element with the bytes that it takes in a list. `first` is the definitions' own argument: only an element that is
// not its list's first has a space before it.
ghost use Rattle.std.specs.Prelude.{◌+◌, ◌-◌, ◌≤◌, ◌<◌, ◌^◌, Some, ◌≡◌, cond, ◌||◌, eqb, drop, length};
ghost use Rattle.digits.specs.Read.{got, wrong, and_read};
ghost use Rattle.text.specs.Tokens.{element_at, token_at};
ghost use Rattle.text_value.specs.Answers.{Within};
ghost use Rattle.text_check.specs.Answers.{at_most, opened, shaped, token_of, count_of, opens_of, span_token, vocab_token, number_token, behind_gap};

use crate::span::{Span, blob_span, string_span};
use list::{Kind, LIST_LIMIT, NUMBER, TERMINATOR};
use text_value::{NumberRead, Word, number_at, vocab_at};

// Three cases with different contents, so neither an Option nor a flag.
#[derive(Clone, Copy)]
pub enum TokenRead {
    Open(usize),
    Close,
    Value {
        code: u32,
        payload: usize,
        count: usize,
    },
}

impl TokenRead {
    // The characters.
    pub fn count(self) -> usize
        ensures { result ≡ count_of self }
    {
        match self {
            TokenRead::Open(count) => count,
            TokenRead::Close => 1,
            TokenRead::Value {
                code: _,
                payload: _,
                count,
            } => count,
        }
    }

    pub fn opens(self) -> bool
        ensures { result ≡ opens_of self }
    {
        matches!(self, TokenRead::Open(_))
    }
}

// The bytes of a length, of what it counts and of what stands behind them, sizes beyond a list's limit not told apart.
fn payload_of(stored: usize, tail: usize) -> usize
    requires { tail ≤ 1 }
    ensures { result ≡ at_most (4 + (stored + tail)) }
{
    if LIST_LIMIT <= stored {
        return LIST_LIMIT + 1;
    }
    let n = NUMBER + stored + tail;
    if LIST_LIMIT < n {
        return LIST_LIMIT + 1;
    }
    n
}

// A string or a blob, with the character that opens it.
fn span_token(read: Span, code: u32, tail: usize) -> TokenRead
    requires { (tail ≤ 1) × (read.count < 2 ^ 64 - 1) }
    ensures { token_of (Some result) ≡ span_token code tail (Some read) }
{
    TokenRead::Value {
        code,
        payload: payload_of(read.stored, tail),
        count: read.count + 1,
    }
}

fn vocab_token(read: Word) -> TokenRead
    requires { read.count < 2 ^ 64 - 1 }
    ensures { token_of (Some result) ≡ vocab_token (Some read) }
{
    TokenRead::Value {
        code: Kind::VOCAB,
        payload: NUMBER,
        count: read.count + 1,
    }
}

fn number_token(read: NumberRead) -> TokenRead
    ensures { token_of (Some result) ≡ number_token (Some read) }
{
    match read {
        NumberRead::Int { bits: _, count } => TokenRead::Value {
            code: Kind::INT,
            payload: NUMBER,
            count,
        },
        NumberRead::Float {
            low: _,
            high: _,
            count,
        } => TokenRead::Value {
            code: Kind::FLOAT,
            payload: 2 * NUMBER,
            count,
        },
    }
}

// An element's first token.
fn element_at(text: &[u8], at: usize) -> Option<TokenRead>
    ensures { (token_of result ≡ and_read (element_at (drop at text.now)) shaped) × Within at (length text.now) (token_of result) }
{
    if text.len() <= at {
        return None;
    }
    let c = text[at];
    match c {
        b'(' => Some(TokenRead::Open(1)),
        b'"' => Some(span_token(string_span(text, at + 1)?, Kind::STR, TERMINATOR as usize)),
        b'{' => Some(span_token(blob_span(text, at + 1)?, Kind::BLOB, 0)),
        b'[' => Some(vocab_token(vocab_at(text, at + 1)?)),
        _ => Some(number_token(number_at(text, at)?)),
    }
}

// May an element begin with this character, the space before it included? The first of a list has none.
fn may_begin(c: u8, first: bool) -> bool
    ensures { result ≡ (first || eqb c 32) }
{
    first | (c == b' ')
}

// The characters that a space takes before an element. They do not depend on the text, so that the next character can be read ahead.
fn gap_before(first: bool) -> usize
    ensures { result ≡ cond first 0 1 }
{
    if first {
        return 0;
    }
    1
}

// The same with `gap` characters before it; no element is a closing bracket.
fn moved(read: TokenRead, gap: usize) -> Option<TokenRead>
    requires { Within gap (2 ^ 64 - 1) (token_of (Some read)) }
    ensures { token_of result ≡ behind_gap gap (Some read) }
{
    match read {
        TokenRead::Open(count) => Some(TokenRead::Open(count + gap)),
        TokenRead::Close => None,
        TokenRead::Value {
            code,
            payload,
            count,
        } => Some(TokenRead::Value {
            code,
            payload,
            count: count + gap,
        }),
    }
}

// An opening bracket with no space before it: only the first element of a list may begin so.
fn opening(first: bool) -> Option<TokenRead>
    ensures { token_of result ≡ cond first (got opened 1) wrong }
{
    if first {
        return Some(TokenRead::Open(1));
    }
    None
}

// The token at an offset, with the space before it; `first` where an element that comes would be its list's first.
pub fn token_at(text: &[u8], at: usize, first: bool) -> Option<TokenRead>
    ensures { (token_of result ≡ and_read (token_at first (drop at text.now)) shaped) × Within at (length text.now) (token_of result) }
{
    if text.len() <= at {
        return None;
    }
    let c = text[at];
    if c == b')' {
        return Some(TokenRead::Close);
    }
    // Tested here as well, so that nested lists need not be read as elements.
    if c == b'(' {
        return opening(first);
    }
    if !may_begin(c, first) {
        return None;
    }
    let gap = gap_before(first);
    moved(element_at(text, at + gap)?, gap)
}
