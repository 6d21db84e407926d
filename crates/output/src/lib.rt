// A program's output, collected in a buffer. A piece that does not fit is left out whole; `flush_if_full` keeps room for any line.
// The functions take an area of any length and how many of its bytes are in use; `Output` has both, and its methods are these functions.
#![tactic(auto)]

ghost use Rattle.std.specs.Prelude.{◌+◌, ◌<◌, ◌≡◌, [], ◌∷◌, leb, length, replicate};
ghost use Rattle.io.specs.Digits.{hex_digit_ascii};
ghost use Rattle.digits.specs.Decimal.{decimal};
ghost use Rattle.output.specs.Digits.{hex_byte, hex_word};
ghost use Rattle.output.specs.Output.{output as Output·output, put as Output·put, puts, put_bytes, put_front, newline, handed, list_line_room, kept};

use list::LIST_LIMIT;

// The numbers of the standard streams.
const STDOUT_FILENO: i32 = 1;

// The words and numbers of a line beside its list.
const WORD_ROOM: usize = 256;

// The longest line: two digits for each byte of a list, and the words around them.
pub const LIST_LINE_ROOM: usize = 2 * LIST_LIMIT + WORD_ROOM;

// A piece behind what is in use; answers the end of it.
pub fn put(out: &mut [u8], used: usize, piece: &[u8]) -> usize
    ensures { Output·output out.new result ≡ Output·put (Output·output out.old used) piece.now }
{
    if used <= out.len() {
        if piece.len() <= out.len() - used {
            wire::copy_at(&mut *out, used, piece);
            return used + piece.len();
        }
    }
    used
}

// A label, and a number in decimal.
pub fn put_number(out: &mut [u8], used: usize, label: &[u8], n: u64) -> usize
    ensures { Output·output out.new result ≡ puts (Output·output out.old used) (label.now ∷ decimal n ∷ []) }
{
    let at = put(&mut *out, used, label);
    // One digit by itself, as most numbers have no more: a piece of known length takes no call.
    if n < 10 {
        return put(out, at, &[b'0' + n as u8]);
    }
    let mut digits = [0u8; 20];
    let count = io::decimal(n, &mut digits);
    put(&mut *out, at, &digits[..count])
}

// A label, a number and the end of the line.
pub fn put_line(out: &mut [u8], used: usize, label: &[u8], n: u64) -> usize
    ensures { Output·output out.new result ≡ puts (Output·output out.old used) (label.now ∷ decimal n ∷ newline ∷ []) }
{
    let at = put_number(&mut *out, used, label, n);
    put(&mut *out, at, b"\n")
}

// A number of 32 bits by its eight hexadecimal digits.
pub fn put_word(out: &mut [u8], used: usize, n: u32) -> usize
    ensures { Output·output out.new result ≡ Output·put (Output·output out.old used) (hex_word n) }
{
    let mut digits = [0u8; 16];
    let count = io::hex(n as u64, 8, &mut digits);
    put(&mut *out, used, &digits[..count])
}

// Bytes by two hexadecimal digits each.
pub fn put_bytes(out: &mut [u8], used: usize, bytes: &[u8]) -> usize
    ensures { Output·output out.new result ≡ put_bytes (Output·output out.old used) bytes.now }
{
    let mut at = used;
    for b in bytes {
        at = put_byte(&mut *out, at, *b);
    }
    at
}

// The first n bytes of a list by two hexadecimal digits each.
pub fn put_front(out: &mut [u8], used: usize, list: &[u8], n: usize) -> usize
    ensures { Output·output out.new result ≡ put_front (Output·output out.old used) list.now n }
{
    if n <= list.len() {
        return put_bytes(out, used, &list[..n]);
    }
    used
}

// One test for the room of both digits, since a list has thousands of bytes.
fn put_byte(out: &mut [u8], used: usize, b: u8) -> usize
    ensures { Output·output out.new result ≡ Output·put (Output·output out.old used) (hex_byte b) }
{
    if out.len() < 2 {
        return used;
    }
    if out.len() - 2 < used {
        return used;
    }
    out[used] = digit(b / 16);
    out[used + 1] = digit(b % 16);
    used + 2
}

fn digit(d: u8) -> u8
    requires { d < 16 }
    ensures { result ≡ hex_digit_ascii d }
{
    if d < 10 {
        return 48 + d;
    }
    87 + d
}

// Hands what is collected to standard output; answers how many bytes that are.
pub fn flush(out: &[u8], used: usize) -> usize
    ensures { result ≡ handed out.now used }
{
    if out.len() < used {
        return 0;
    }
    io::write_all(STDOUT_FILENO, &out[..used]);
    used
}

// Room for a line: what is collected is written where too little is left.
pub fn flush_if_full(out: &[u8], used: usize) -> usize
    ensures { result ≡ kept out.now used }
{
    if has_line_room(out, used) {
        return used;
    }
    flush(out, used);
    0
}

fn has_line_room(out: &[u8], used: usize) -> bool
    ensures { result ≡ leb (used + list_line_room) (length out.now) }
{
    if out.len() < LIST_LINE_ROOM {
        return false;
    }
    used <= out.len() - LIST_LINE_ROOM
}

// A buffer, and how many of its bytes are in use.
#[derive(Drop)]
pub struct Output<const N: usize> {
    pub buffer: [u8; N],
    pub used: usize,
}

impl<const N: usize> Output<N> {
    // Nothing is in use. Compiled in where it is called, so that the buffer is cleared in its place.
    #[inline(always)]
    pub fn new() -> Output<N>
        ensures { (result.buffer ≡ replicate N 0) × (result.used ≡ 0) }
    {
        Output {
            buffer: [0; N],
            used: 0,
        }
    }

    // A piece behind what is in use.
    pub fn put(&mut self, piece: &[u8])
        ensures { Output·output self.new.buffer self.new.used ≡ Output·put (Output·output self.old.buffer self.old.used) piece.now }
    {
        self.used = put(&mut self.buffer, self.used, piece);
    }

    // A label, and a number in decimal.
    pub fn put_number(&mut self, label: &[u8], n: u64)
        ensures { Output·output self.new.buffer self.new.used ≡ puts (Output·output self.old.buffer self.old.used) (label.now ∷ decimal n ∷ []) }
    {
        self.used = put_number(&mut self.buffer, self.used, label, n);
    }

    // A label, a number and the end of the line.
    pub fn put_line(&mut self, label: &[u8], n: u64)
        ensures { Output·output self.new.buffer self.new.used ≡ puts (Output·output self.old.buffer self.old.used) (label.now ∷ decimal n ∷ newline ∷ []) }
    {
        self.used = put_line(&mut self.buffer, self.used, label, n);
    }

    // A number of 32 bits by its eight hexadecimal digits.
    pub fn put_word(&mut self, n: u32)
        ensures { Output·output self.new.buffer self.new.used ≡ Output·put (Output·output self.old.buffer self.old.used) (hex_word n) }
    {
        self.used = put_word(&mut self.buffer, self.used, n);
    }

    // Bytes by two hexadecimal digits each.
    pub fn put_bytes(&mut self, bytes: &[u8])
        ensures { Output·output self.new.buffer self.new.used ≡ put_bytes (Output·output self.old.buffer self.old.used) bytes.now }
    {
        self.used = put_bytes(&mut self.buffer, self.used, bytes);
    }

    // The first n bytes of a list by two hexadecimal digits each.
    pub fn put_front(&mut self, list: &[u8], n: usize)
        ensures { Output·output self.new.buffer self.new.used ≡ put_front (Output·output self.old.buffer self.old.used) list.now n }
    {
        self.used = put_front(&mut self.buffer, self.used, list, n);
    }

    // Hands what is collected to standard output; answers how many bytes that are.
    pub fn flush(&self) -> usize
        ensures { result ≡ handed self.now.buffer self.now.used }
    {
        flush(&self.buffer, self.used)
    }

    // Room for a line: what is collected is written where too little is left.
    pub fn flush_if_full(&mut self)
        ensures { (self.new.buffer ≡ self.old.buffer) × (self.new.used ≡ kept self.old.buffer self.old.used) }
    {
        self.used = flush_if_full(&self.buffer, self.used);
    }
}
