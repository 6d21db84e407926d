// Ints.
ghost use Rattle.std.specs.Prelude.{◌<◌, ◌-◌, ◌^◌, ◌≡◌, drop, length};
ghost use Rattle.text.specs.Read.{minus_bits, int_at};
ghost use Rattle.text_value.specs.Answers.{word_of, Within};

use crate::Word;
use crate::digit::decimal_at;

const MOST: u32 = 0x7fff_ffff;

// The bits of a number below 0; -0 is none.
fn minus_bits(read: Word) -> Option<Word>
    requires { read.count < 2 ^ 64 - 1 }
    ensures { word_of result ≡ minus_bits read.bits read.count }
{
    if read.bits == 0 {
        return None;
    }
    Some(Word {
        // The library's `wrapping_neg` is a sum that wraps, and none does here.
        bits: (0x1_0000_0000 - u64::from(read.bits)) as u32,
        count: read.count + 1,
    })
}

pub fn int_at(text: &[u8], at: usize) -> Option<Word>
    ensures { (word_of result ≡ int_at (drop at text.now)) × Within at (length text.now) (word_of result) }
{
    if wire::byte_at(text, at) == b'-' {
        return minus_bits(decimal_at(text, at + 1, MOST + 1)?);
    }
    decimal_at(text, at, MOST)
}
