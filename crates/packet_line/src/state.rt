// Whether bytes are a line state.
ghost use Rattle.std.specs.Prelude.{◌≡◌, ◌+◌, ◌%◌, ◌<◌, ◌≤◌, length, if◌then◌else◌, nat_eq, slice_index};
ghost use Rattle.wire.specs.Every.{every};
ghost use Rattle.wire.specs.Zero.{zero_at};
ghost use Rattle.packet_line.specs.Steps.{is_mark, filled_of};
ghost use Rattle.packet_line.specs.State.{LINE_ROOM as Spec-as-LINE_ROOM, INSIDE as Spec-as-INSIDE, is_line};

use super::{HELD, INSIDE, LINE_ROOM, PACKET, PHASE, SIZE};
use packet::PART_LEAST;

// Whether some line leaves the bytes of this area as its state.
pub fn is_line(line: &[u8]) -> bool
    ensures { result ≡ is_line line.now }
{
    if line.len() != LINE_ROOM {
        return false;
    }
    if line[PHASE] < INSIDE {
        return wire::is_zero(&line[HELD..]);
    }
    if line[PHASE] != INSIDE {
        return false;
    }
    is_inside(line)
}

// The same inside a part.
fn is_inside(line: &[u8]) -> bool
    requires { (length line.now ≡ Spec-as-LINE_ROOM) × (slice_index line.now 0 ≡ Spec-as-INSIDE) }
    ensures { result ≡ is_line line.now }
{
    let size = line[SIZE];
    if line[PACKET] != 0 {
        return false;
    }
    if (size as usize) < PART_LEAST {
        return false;
    }
    if size <= line[HELD] {
        return false;
    }
    is_marked(&line[SIZE..], line[HELD])
}

// Whether a byte is 00 exactly where nothing is held: the first is the length byte, then as many as are held are none of them 00.
// So the first 00 stands behind these, and as many bytes in all are none: two searches without a test of each byte's place.
fn is_marked(room: &[u8], held: u8) -> bool
    requires { (held + 1 < length room.now) × (length room.now ≤ 256) }
    ensures { result ≡ every (length room.now) (is_mark room.now held) }
{
    let next = held as usize + 1;
    if room[next] != 0 {
        return false;
    }
    if first_zero(room) != next {
        return false;
    }
    filled(room) == held + 1
}

// The offset of the first 00 of bytes that have one. The loop tests no bound, so that the compiler makes a call of strlen of it.
fn first_zero(s: &[u8]) -> usize
    requires { zero_at s.now < length s.now }
    ensures { result ≡ zero_at s.now }
{
    let mut i: usize = 0;
    while s[i] != 0 {
        i += 1;
    }
    i
}

// How many bytes are not 00, counted in one byte, so that the loop can run on many bytes at once; where there are 256 the count wraps to 0.
fn filled(s: &[u8]) -> u8
    ensures { result ≡ filled_of s.now % 256 }
{
    let mut n: u8 = 0;
    for byte in s {
        n = counted(n, *byte);
    }
    n
}

// One more for a byte that is not 00.
fn counted(n: u8, byte: u8) -> u8
    ensures { result ≡ (if nat_eq byte 0 then n else (n + 1) % 256) }
{
    if byte == 0 {
        return n;
    }
    n.wrapping_add(1)
}
