// What a list is: the kinds of its elements, the limits of 01, its rows, and the refusal of list reading.
#![tactic(auto)]

ghost use Rattle.std.specs.Prelude.{◌≡◌, [], ◌∷◌, get_or};
ghost use Rattle.list.specs.Kind.{kind_of, size_of};
ghost use Rattle.list.specs.Bytes.{common};
ghost use Rattle.list.specs.RowBytes.{packed, unpacked, row_of};

use errors::Error;
use numbers::{bytes32, u32_at};

// "A list has at most 4,096 bytes": also the room that a list buffer must have.
pub const LIST_LIMIT: usize = 4096;

// "store under 4,096"
pub const STORE_ROOM: usize = 4096;

// "rows under 3,072 numbers"
pub const ROW_ROOM: usize = 3072;

// The bytes of a number.
pub const NUMBER: usize = 4;

// The numbers of a row.
pub const ROW_NUMBERS: usize = 3;

// The bytes of a row, and the room that rows must have, in bytes.
pub const ROW: usize = NUMBER * ROW_NUMBERS;

pub const ROW_BYTES: usize = NUMBER * ROW_ROOM;

// A number from here on is below 0 as a signed one.
pub const NEGATIVE: u32 = 0x8000_0000;

// "a string ends in zero": the bytes that stand behind a string's own and are counted in its length.
pub const TERMINATOR: u32 = 1;

// "A list may stand inside a list to depth 8, the outermost being 1."
pub const DEPTH_LIMIT: usize = 8;

// The code of a list whose elements carry their codes; a typed list has this and its kind's code.
pub const LIST_CODE: u32 = 256;

// Why list reading refuses: the error, the offset of the item at fault, and how many lists are open at the fault.
#[derive(Clone, Copy)]
pub struct Refusal {
    pub error: Error,
    pub offset: usize,
    pub depth: u8,
}

// One row of a list: a code and two numbers.
#[derive(Clone, Copy)]
pub struct Row {
    pub code: u32,
    pub second: u32,
    pub third: u32,
}

// A number of rows that are bytes, 0 past the last. It is read from a part of its size, so that it needs no further test.
pub fn number_at(rows: &[u8], i: usize) -> u32
    ensures { result ≡ get_or (unpacked rows.now) i 0 }
{
    if i < rows.len() / NUMBER {
        let at = NUMBER * i;
        return u32_at(&rows[at..at + NUMBER], 0);
    }
    0
}

// What is left of a row behind the last whole one, zeros past the end.
fn cut_row(rows: &[u8], i: usize) -> Row
    ensures { result ≡ row_of rows.now i }
{
    if rows.len() / NUMBER <= i {
        return Row {
            code: 0,
            second: 0,
            third: 0,
        };
    }
    let at = ROW_NUMBERS * i;
    Row {
        code: number_at(rows, at),
        second: number_at(rows, at + 1),
        third: number_at(rows, at + 2),
    }
}

// Row i of rows that are bytes, zeros past the last. One test of room serves its three numbers.
pub fn row_at(rows: &[u8], i: usize) -> Row
    ensures { result ≡ row_of rows.now i }
{
    if i < rows.len() / ROW {
        let first = ROW * i;
        let second = first + NUMBER;
        let third = second + NUMBER;
        return Row {
            code: u32_at(&rows[first..second], 0),
            second: u32_at(&rows[second..third], 0),
            third: u32_at(&rows[third..third + NUMBER], 0),
        };
    }
    cut_row(rows, i)
}

// The bytes of a row.
pub fn row_bytes(code: u32, second: u32, third: u32) -> [u8; ROW]
    ensures { result ≡ packed (code ∷ second ∷ third ∷ []) }
{
    let [a, b, c, d] = bytes32(code);
    let [e, f, g, h] = bytes32(second);
    let [i, j, k, l] = bytes32(third);
    [a, b, c, d, e, f, g, h, i, j, k, l]
}

// The code that the elements so far have in common: 0 before the first, LIST_CODE where two differ or one is a list.
pub fn common_code(seen: u32, code: u32) -> u32
    ensures { result ≡ common seen code }
{
    if seen == 0 {
        return code;
    }
    if seen == code {
        return code;
    }
    LIST_CODE
}

// "Codes: NetInt 1, NetFloat 10 (8 bytes, low byte first), NetString 4, NetBlob 12, NetVocab 9."
// The codes are constants of the type, as docs/DECISIONS.md says ("Forms that 01 names").
#[derive(Clone, Copy)]
pub enum Kind {
    Int,
    Float,
    Str,
    Blob,
    Vocab,
}

// "The code is 256 plus the kind": the codes of the lists of one kind, whose elements carry none.
pub const INTS: u32 = LIST_CODE + Kind::INT;

pub const FLOATS: u32 = LIST_CODE + Kind::FLOAT;

pub const STRINGS: u32 = LIST_CODE + Kind::STR;

pub const BLOBS: u32 = LIST_CODE + Kind::BLOB;

pub const VOCABS: u32 = LIST_CODE + Kind::VOCAB;

impl Kind {
    pub const INT: u32 = 1;

    pub const FLOAT: u32 = 10;

    pub const STR: u32 = 4;

    pub const BLOB: u32 = 12;

    pub const VOCAB: u32 = 9;

    // The kind of a code, if it is a kind's.
    #[tactic(auto, unfolding(crate::specs::Kind::kind_of))]
    pub fn of_code(code: u32) -> Option<Kind>
        ensures { result ≡ kind_of code }
    {
        match code {
            Kind::INT => Some(Kind::Int),
            Kind::FLOAT => Some(Kind::Float),
            Kind::STR => Some(Kind::Str),
            Kind::BLOB => Some(Kind::Blob),
            Kind::VOCAB => Some(Kind::Vocab),
            _ => None,
        }
    }

    // The bytes of a fixed element, or of the length that stands before a string's or a blob's bytes.
    pub fn size(self) -> usize
        ensures { result ≡ size_of self }
    {
        match self {
            Kind::Int => NUMBER,
            Kind::Float => 2 * NUMBER,
            Kind::Str => NUMBER,
            Kind::Blob => NUMBER,
            Kind::Vocab => NUMBER,
        }
    }
}
