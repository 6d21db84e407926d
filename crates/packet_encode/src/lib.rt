// Packet writing: the blocks go straight into the buffer, from the back, so that each code is known when its place is reached.
#![tactic(auto)]

ghost use Rattle.std.specs.Prelude.{suc, ◌+◌, ◌-◌, ◌≤◌, ◌<◌, ◌≡◌, [], ◌∷◌, ◌++◌, length, drop};
ghost use Rattle.packet.specs.Message.{xor_from};
ghost use Rattle.packet.specs.Cobs.{code_or, gap_from, gap_before, stuffed};
ghost use Rattle.packet_encode.specs.Encode.{result_of, encoded};
ghost use Rattle.packet_encode.specs.Word.{word_size};

use errors::Error;
use packet::{PACKET_ROOM, is_allowed};

// The bytes of a word.
const WORD: usize = 8;

// The exclusive or of `start` and all bytes. The compiler makes a loop on many bytes at once of it.
fn xor_from(start: u8, bytes: &[u8]) -> u8
    ensures { result ≡ xor_from start bytes.now }
{
    let mut x = start;
    for b in bytes {
        x = x ^ *b;
    }
    x
}

// The same of a word.
fn xor_word(start: u8, word: &[u8]) -> u8
    requires { length word.now ≡ word_size }
    ensures { result ≡ xor_from start word.now }
{
    start ^ word[0] ^ word[1] ^ word[2] ^ word[3] ^ word[4] ^ word[5] ^ word[6] ^ word[7]
}

// From how many bytes on a loop on many at once is faster than one that goes word by word.
const MANY: usize = 32;

// The exclusive or of all bytes: of fewer than MANY word by word, and what is left of them byte by byte. The library's chunks are
// generic calls, which tests/no_arrays.sh refuses, so the loops by words count their offset.
fn xor_of(bytes: &[u8]) -> u8
    ensures { result ≡ xor_from 0 bytes.now }
{
    if MANY <= bytes.len() {
        return xor_from(0, bytes);
    }
    let mut x: u8 = 0;
    let mut i: usize = 0;
    while WORD <= bytes.len() - i {
        x = xor_word(x, &bytes[i..i + WORD]);
        i += WORD;
    }
    xor_from(x, &bytes[i..])
}

// The code at a place of the message is that of a block which would open there: one more than the bytes between it and the next zero.

// What stands in the part for a byte: the code at its place for a zero, or the byte itself.
fn code_or(byte: u8, code: usize) -> u8
    requires { (0 < code) × (code < 256) }
    ensures { result ≡ code_or byte (code - 1) }
{
    if byte == 0 { code as u8 } else { byte }
}

// The code one place before a byte, from the code at the byte's place.
fn next_code(byte: u8, code: usize) -> usize
    requires { (0 < code) × (code < 256) }
    ensures { result ≡ suc (gap_from byte (code - 1)) }
{
    if byte == 0 { 1 } else { code + 1 }
}

// `bytes` and `part` stay two slices: they are cut anew for each word, and a struct of both would be made anew with them.

// Encodes bytes of the message from the back, where `last` is the code at the last one's place. Answers the code one place before the first.
fn encode_few(bytes: &[u8], last: usize, part: &mut [u8]) -> usize
    requires { (length bytes.now ≡ length part.old) × (0 < last) × (last + length bytes.now < 256) }
    ensures { (result ≡ suc (gap_before (last - 1) bytes.now)) × (part.new ≡ stuffed (last - 1) bytes.now) }
{
    let mut code = last;
    for i in (0..bytes.len()).rev() {
        let b = bytes[i];
        part[i] = code_or(b, code);
        code = next_code(b, code);
    }
    code
}

// As `encode_few`, where the part holds the bytes: only zeros are replaced. One function for both would be generic in that, and
// tests/no_arrays.sh refuses generic calls.
fn put_codes(bytes: &[u8], last: usize, part: &mut [u8]) -> usize
    requires { (part.old ≡ bytes.now) × (0 < last) × (last + length bytes.now < 256) }
    ensures { (result ≡ suc (gap_before (last - 1) bytes.now)) × (part.new ≡ stuffed (last - 1) bytes.now) }
{
    let mut code = last;
    for i in (0..bytes.len()).rev() {
        if bytes[i] == 0 {
            part[i] = code as u8;
            code = 1;
        } else {
            code += 1;
        }
    }
    code
}

// Copies a word. All bytes are read before one is written, so that the compiler can make one move of them.
fn copy_word(word: &[u8], part: &mut [u8])
    requires { (length word.now ≡ word_size) × (length part.old ≡ word_size) }
    ensures { part.new ≡ word.now }
{
    let a = word[0];
    let b = word[1];
    let c = word[2];
    let d = word[3];
    let e = word[4];
    let f = word[5];
    let g = word[6];
    let h = word[7];
    part[0] = a;
    part[1] = b;
    part[2] = c;
    part[3] = d;
    part[4] = e;
    part[5] = f;
    part[6] = g;
    part[7] = h;
}

// As `encode_few`, for a word. Most bytes stand for themselves, so it is copied whole first.
fn encode_word(word: &[u8], last: usize, part: &mut [u8]) -> usize
    requires { (length word.now ≡ word_size) × (length part.old ≡ word_size) × (0 < last) × (last + word_size < 256) }
    ensures { (result ≡ suc (gap_before (last - 1) word.now)) × (part.new ≡ stuffed (last - 1) word.now) }
{
    copy_word(word, &mut *part);
    put_codes(word, last, &mut *part)
}

// As `encode_few`, word by word; what is left at the front goes byte by byte.
fn encode_bytes(bytes: &[u8], last: usize, part: &mut [u8]) -> usize
    requires { (length bytes.now ≡ length part.old) × (0 < last) × (last + length bytes.now < 256) }
    ensures { (result ≡ suc (gap_before (last - 1) bytes.now)) × (part.new ≡ stuffed (last - 1) bytes.now) }
{
    let mut code = last;
    let mut i = bytes.len();
    while WORD <= i {
        i -= WORD;
        code = encode_word(&bytes[i..i + WORD], code, &mut part[i..i + WORD]);
    }
    encode_few(&bytes[0..i], code, &mut part[0..i])
}

// Writes 00, the length byte, the first code, type and payload length, where `code` is the code at the place of the last. No type is 0.
fn put_front(buffer: &mut [u8], kind: u8, n: usize, code: usize)
    requires { (5 ≤ length buffer.old) × (0 < kind) × (n ≤ 251) × (0 < code) × (code < 254) }
    ensures { buffer.new ≡ 0 ∷ (n + 4) ∷ (stuffed (code - 1) (0 ∷ kind ∷ n ∷ []) ++ drop 5 buffer.old) }
{
    let len = n as u8;
    buffer[0] = 0;
    buffer[1] = len + 4;
    buffer[2] = (next_code(len, code) + 1) as u8;
    buffer[3] = kind;
    buffer[4] = code_or(len, code);
}

// Writes the packet of a type and a payload to the front of the buffer, and answers how many bytes it has. Nothing is written
// before the last error is ruled out. The type is a number, since C may ask for any.
pub fn encode(kind: u8, payload: &[u8], buffer: &mut [u8]) -> Result<usize, Error>
    ensures { record { result = result_of result; buffer = buffer.new } ≡ encoded kind payload.now buffer.old }
{
    if buffer.len() < PACKET_ROOM {
        return Err(Error::NoRoom);
    }
    let n = payload.len();
    if !is_allowed(kind, n) {
        return Err(Error::MessageType);
    }
    if n == 0 {
        // Written at once, for speed: the checksum is the type.
        buffer[5] = kind;
        put_front(&mut *buffer, kind, 0, 2);
        return Ok(6);
    }
    let sum = xor_of(payload) ^ (kind ^ n as u8);
    buffer[n + 5] = code_or(sum, 1);
    let last = next_code(sum, 1);
    let code = encode_bytes(payload, last, &mut buffer[5..n + 5]);
    put_front(&mut *buffer, kind, n, code);
    Ok(n + 6)
}
