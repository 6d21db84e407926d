// A blob's bytes.
ghost use Rattle.std.specs.Prelude.{◌≡◌, drop, length, get_or};
ghost use Rattle.text.specs.Read.{byte_at};
ghost use Rattle.text_value.specs.Answers.{word_of, gap_size, Within, AtMost};

use crate::Word;
use crate::digit::byte_decimal_at;

// What a space takes before a byte that is not the first; none where it is missing.
fn gap_size(text: &[u8], at: usize, first: bool) -> Option<usize>
    ensures { result ≡ gap_size first (get_or text.now at 0) }
{
    if first {
        return Some(0);
    }
    if wire::byte_at(text, at) == b' ' {
        return Some(1);
    }
    None
}

// A byte of a blob with the space before it; the first has none, and `first` is the definition's own argument.
pub fn blob_byte_at(text: &[u8], at: usize, first: bool) -> Option<Word>
    ensures { (word_of result ≡ byte_at first (drop at text.now)) × Within at (length text.now) (word_of result) × AtMost 255 (word_of result) }
{
    let gap = gap_size(text, at, first)?;
    let Word { bits, count } = byte_decimal_at(text, at + gap)?;
    Some(Word {
        bits,
        count: count + gap,
    })
}
