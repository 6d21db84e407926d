// COBS for parts of at most 255 bytes: after every block but the last a zero is restored.
ghost use Rattle.std.specs.Prelude.{◌+◌, ◌-◌, ◌≤◌, ◌<◌, ◌≡◌, ◌++◌, false, length, get_or, drop};
ghost use Rattle.wire.specs.Zero.{has_zero};
ghost use Rattle.packet.specs.Message.{xor_from};
ghost use Rattle.packet.specs.Cobs.{decoded_part, lacking};

// What a look at every byte of a part finds. No Option: the exclusive or is that of all bytes, with a 00 among them too.
#[derive(Drop)]
pub struct Scanned {
    pub zero: bool,
    pub sum: u8,
}

// Is one of the bytes 00, and the exclusive or of all. One pass with one exit, so that it can run on many bytes at once.
pub fn scan(bytes: &[u8]) -> Scanned
    ensures { (result.zero ≡ has_zero bytes.now) × (result.sum ≡ xor_from 0 bytes.now) }
{
    let mut zero = false;
    let mut sum: u8 = 0;
    for b in bytes {
        zero = zero | (*b == 0);
        sum = sum ^ *b;
    }
    Scanned { zero, sum }
}

// What a walk from code to code of a part finds.
#[derive(Drop)]
pub struct Walked {
    pub lack: usize,
    pub sum: usize,
}

// How many bytes the last block lacks, and the exclusive or of the message: that of the part without its codes. It is taken in the
// width of an offset, since a code is both added and taken in.
pub fn walk(part: &[u8], all: u8) -> Walked
    requires { (length part.now ≤ 255) × (has_zero part.now ≡ false) × (all ≡ xor_from 0 part.now) }
    ensures { (result.lack ≡ lacking 0 part.now) × (result.sum ≡ xor_from 0 (decoded_part part.now)) }
{
    let mut sum = all as usize;
    let mut i = 0;
    // Each code says how far the next one is, and a `for` goes by one; so in `decode_part`.
    while i < part.len() {
        let code = part[i] as usize;
        sum = sum ^ code;
        i += code;
    }
    Walked {
        lack: i - part.len(),
        sum,
    }
}

// Decodes a part into the front of the buffer: all but the first code is copied, then each code becomes a zero.
// Codes 1 in a row, zeros in a row of the message, need no look at how far the next code is.
pub fn decode_part(part: &[u8], message: &mut [u8])
    requires { (1 ≤ length part.now) × (length part.now ≤ 255) × (has_zero part.now ≡ false) × (length part.now - 1 ≤ length message.old) }
    ensures { message.new ≡ decoded_part part.now ++ drop (length part.now - 1) message.old }
{
    wire::copy_at(&mut *message, 0, &part[1..]);
    let mut i = part[0] as usize;
    while i < part.len() {
        message[i - 1] = 0;
        i += part[i] as usize;
        while i < part.len() && part[i] == 1 {
            message[i - 1] = 0;
            i += 1;
        }
    }
}

// The first byte of a part's message.
pub fn first_byte(part: &[u8]) -> u8
    requires { (4 ≤ length part.now) × (has_zero part.now ≡ false) }
    ensures { result ≡ get_or (decoded_part part.now) 0 0 }
{
    if part[0] == 1 {
        return 0;
    }
    part[1]
}

// The second byte of a part's message.
pub fn second_byte(part: &[u8]) -> u8
    requires { (4 ≤ length part.now) × (has_zero part.now ≡ false) }
    ensures { result ≡ get_or (decoded_part part.now) 1 0 }
{
    if part[0] == 2 {
        return 0;
    }
    if part[0] != 1 {
        return part[2];
    }
    if part[1] == 1 {
        return 0;
    }
    part[2]
}
