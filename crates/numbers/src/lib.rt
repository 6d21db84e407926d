// Numbers as bytes, low byte first. Every function answers for every input.
#![tactic(auto)]

ghost use Rattle.std.specs.Prelude.{◌+◌, ◌*◌, ◌≡◌, ◌++◌};
ghost use Rattle.wire.specs.Number.{le_bytes, number_at};
ghost use Rattle.wire.specs.Area.{put_at};

use wire::{byte_at, copy_at};

// The number of two bytes, low byte first.
fn join16(a: u8, b: u8) -> u16
    ensures { result ≡ a + 256 * b }
{
    u16::from_le_bytes([a, b])
}

// The number of four bytes, low byte first.
pub fn join32(a: u8, b: u8, c: u8, d: u8) -> u32
    ensures { result ≡ a + 256 * (b + 256 * (c + 256 * d)) }
{
    u32::from_le_bytes([a, b, c, d])
}

// The number of two halves, low half first: as bytes they would have to be put together in an array.
fn join64(low: u32, high: u32) -> u64
    ensures { result ≡ low + 4294967296 * high }
{
    low as u64 + 4294967296 * (high as u64)
}

// The bytes of a number, low byte first. One function for both widths would need a trait with laws, which is longer than the two.
pub fn bytes32(x: u32) -> [u8; 4]
    ensures { result ≡ le_bytes 4 x }
{
    x.to_le_bytes()
}

pub fn bytes64(x: u64) -> [u8; 8]
    ensures { result ≡ le_bytes 8 x }
{
    x.to_le_bytes()
}

// The number of two bytes at an offset; bytes past the end count as zeros.
pub fn u16_at(s: &[u8], at: usize) -> u16
    ensures { result ≡ number_at 2 s.now at }
{
    if s.len() <= at {
        return 0;
    }
    join16(s[at], byte_at(s, at + 1))
}

// The same of four bytes: one test where all of them are there. By `first_chunk` list_check takes 24 instructions for an element, by
// this one 22.
pub fn u32_at(s: &[u8], at: usize) -> u32
    ensures { result ≡ number_at 4 s.now at }
{
    if s.len() <= at {
        return 0;
    }
    if 4 <= s.len() - at {
        return join32(s[at], s[at + 1], s[at + 2], s[at + 3]);
    }
    join32(s[at], byte_at(s, at + 1), byte_at(s, at + 2), 0)
}

// The same of eight bytes.
pub fn u64_at(s: &[u8], at: usize) -> u64
    ensures { result ≡ number_at 8 s.now at }
{
    if s.len() <= at {
        return 0;
    }
    if s.len() - at <= 4 {
        return u64::from(u32_at(s, at));
    }
    join64(u32_at(s, at), u32_at(s, at + 4))
}

// A number as four or eight bytes from an offset on, where all of them fit; else nothing changes.
pub fn put_u32(dst: &mut [u8], at: usize, x: u32)
    ensures { dst.new ≡ put_at dst.old at (le_bytes 4 x) }
{
    copy_at(dst, at, &bytes32(x));
}

pub fn put_u64(dst: &mut [u8], at: usize, x: u64)
    ensures { dst.new ≡ put_at dst.old at (le_bytes 8 x) }
{
    copy_at(dst, at, &bytes64(x));
}

// Two numbers, the second behind the first, where both fit; else nothing changes.
pub fn put_two_u32(dst: &mut [u8], at: usize, x: u32, y: u32)
    ensures { dst.new ≡ put_at dst.old at (le_bytes 4 x ++ le_bytes 4 y) }
{
    put_u64(dst, at, join64(x, y));
}
