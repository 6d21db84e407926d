// One byte, bytes that are copied, and the search for a zero. Every public function answers for every input.
#![tactic(auto)]

ghost use Rattle.std.specs.Prelude.{◌≡◌, ◌*◌, ◌≤◌, ◌<◌, false, length, get_or, take, replicate, position, nat_eq};
ghost use Rattle.wire.specs.Area.{block_size, put_at, replaced};
ghost use Rattle.wire.specs.Zero.{has_zero, zero_at, all_zero};

// The byte at an offset, 0 past the end.
pub fn byte_at(s: &[u8], at: usize) -> u8
    ensures { result ≡ get_or s.now at 0 }
{
    s.get(at).copied().unwrap_or(0)
}

// Is one of the bytes 00. Every byte is looked at, so that the loop has one exit and can run on many bytes at once.
pub fn has_zero(s: &[u8]) -> bool
    ensures { result ≡ has_zero s.now }
{
    let mut found = false;
    for b in s {
        found = found | (*b == 0);
    }
    found
}

// Is every byte 00, by one exit too.
pub fn is_zero(s: &[u8]) -> bool
    ensures { result ≡ all_zero s.now }
{
    let mut other = false;
    for b in s {
        other = other | (*b != 0);
    }
    !other
}

// How many bytes the search for a 00 passes over at once.
const STRIDE: usize = 32;

// The offset of the first 00, the length where there is none. Whole strides without one are passed over first.
pub fn zero_at(s: &[u8]) -> usize
    ensures { result ≡ zero_at s.now }
{
    let mut passed: usize = 0;
    for stride in s.chunks_exact(STRIDE) {
        if has_zero(stride) {
            break;
        }
        passed += STRIDE;
    }
    match first_zero(&s[passed..]) {
        Some(n) => passed + n,
        None => s.len(),
    }
}

// The first 00, byte by byte.
fn first_zero(s: &[u8]) -> Option<usize>
    ensures { result ≡ position (λ b. nat_eq b 0) s.now }
{
    s.iter().position(|b| *b == 0)
}

// Zeros over all of a buffer. The loop becomes one move of memory; `fill` writes the last byte by itself.
pub fn clear(area: &mut [u8])
    ensures { area.new ≡ replicate (length area.old) 0 }
{
    for b in area.iter_mut() {
        *b = 0;
    }
}

// `src` from an offset on, where all of it fits; else nothing changes.
pub fn copy_at(dst: &mut [u8], at: usize, src: &[u8])
    ensures { dst.new ≡ put_at dst.old at src.now }
{
    if dst.len() < at {
        return;
    }
    if dst.len() - at < src.len() {
        return;
    }
    copy(&mut dst[at..at + src.len()], src);
}

// The longest source that two moves of 8 bytes copy.
const SHORT: usize = 16;

// Copies `src` over a buffer of its length, where it is at most one block; else nothing changes. A short source takes two moves
// that may overlap. A caller that cuts both to one length pays no test of lengths.
pub fn copy_short(dst: &mut [u8], src: &[u8])
    ensures { dst.new ≡ replaced dst.old src.now }
{
    if dst.len() != src.len() {
        return;
    }
    if src.len() <= SHORT {
        copy_few(dst, src);
        return;
    }
    if src.len() <= BLOCK {
        copy_block(dst, src);
    }
}

fn copy_few(dst: &mut [u8], src: &[u8])
    requires { (length dst.old ≡ length src.now) × (length src.now ≤ 16) }
    ensures { dst.new ≡ src.now }
{
    if 8 <= src.len() {
        copy_ends(dst, src, 8);
        return;
    }
    if 4 <= src.len() {
        copy_ends(dst, src, 4);
        return;
    }
    if 2 <= src.len() {
        copy_ends(dst, src, 2);
        return;
    }
    // At most one byte: a move of memory would be a call.
    if src.len() == 1 {
        dst[0] = src[0];
    }
}

// The first n bytes and the last n, which are all of them.
fn copy_ends(dst: &mut [u8], src: &[u8], n: usize)
    requires { (length dst.old ≡ length src.now) × (n ≤ length src.now) × (length src.now ≤ 2 * n) × (n ≤ block_size) }
    ensures { dst.new ≡ src.now }
{
    let last = src.len() - n;
    copy_block(&mut dst[0..n], &src[0..n]);
    copy_block(&mut dst[last..], &src[last..]);
}

// The longest source that is copied in one move.
const BLOCK: usize = 65536;

// Copies `src` over a buffer of its length.
fn copy(dst: &mut [u8], src: &[u8])
    requires { length dst.old ≡ length src.now }
    ensures { dst.new ≡ src.now }
{
    if BLOCK < src.len() {
        copy_long(dst, src);
        return;
    }
    copy_block(dst, src);
}

// The same in blocks, for a source that is longer than one. The place is counted, since of `chunks_mut` a proof learns no element.
fn copy_long(dst: &mut [u8], src: &[u8])
    requires { length dst.old ≡ length src.now }
    ensures { dst.new ≡ src.now }
{
    let mut at: usize = 0;
    for block in src.chunks(BLOCK) {
        copy_block(&mut dst[at..at + block.len()], block);
        at += block.len();
    }
}

// The same for a source of at most one block, by way of an array: nothing overlaps an array of the function's own, so that
// the compiler makes one move of memory of the two loops, and no array.
fn copy_block(dst: &mut [u8], src: &[u8])
    requires { (length dst.old ≡ length src.now) × (length src.now ≤ block_size) }
    ensures { dst.new ≡ src.now }
{
    let mut block = [0u8; BLOCK];
    block[..src.len()].copy_from_slice(src);
    dst.copy_from_slice(&block[..src.len()]);
}
