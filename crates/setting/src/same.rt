// Whether two byte strings are equal.
ghost use Rattle.std.specs.Prelude.{◌≡◌, ◌≤◌, length, drop};
ghost use Rattle.wire.specs.Equal.{same};

use numbers::u64_at;

// The bytes that are compared at once.
const WORD: usize = 8;

// Two of one length, from an offset on, byte by byte.
fn is_same_from(a: &[u8], b: &[u8], from: usize) -> bool
    requires { (length a.now ≡ length b.now) × (from ≤ length a.now) }
    ensures { result ≡ same (drop from a.now) (drop from b.now) }
{
    for i in from..a.len() {
        if a[i] != b[i] {
            return false;
        }
    }
    true
}

// Word by word, which takes fewer instructions than byte by byte, then what is left. A word is read from a part of its size, so that it needs no test.
pub fn is_same(a: &[u8], b: &[u8]) -> bool
    ensures { result ≡ same a.now b.now }
{
    if a.len() != b.len() {
        return false;
    }
    let mut i: usize = 0;
    while WORD <= a.len() - i {
        let next = i + WORD;
        if u64_at(&a[i..next], 0) != u64_at(&b[i..next], 0) {
            return false;
        }
        i = next;
    }
    is_same_from(a, b, i)
}
