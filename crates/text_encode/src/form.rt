// Has every row a text form?
ghost use Rattle.std.specs.Prelude.{◌≡◌};
ghost use Rattle.list.specs.RowBytes.{unpacked};
ghost use Rattle.text.specs.Form.{is_vocab, is_finite};
ghost use Rattle.text_encode.specs.Spell.{row_form, rows_form};

use list::{Kind, Row};
use list_rows::row_count;
use text_value::is_letter;

// One to four letters, lowest first, zeros only above them.
fn is_vocab(bits: u32) -> bool
    ensures { result ≡ is_vocab bits }
{
    if bits == 0 {
        return false;
    }
    let mut left = bits;
    // No `for`: the bytes above the last letter are none of the vocab's, and no index is counted.
    while 0 < left {
        if !is_letter((left % 256) as u8) {
            return false;
        }
        left = left / 256;
    }
    true
}

// Neither an infinity nor a NaN.
fn is_finite(high: u32) -> bool
    ensures { result ≡ is_finite high }
{
    high / 0x10_0000 % 2048 != 2047
}

// Two codes need a look; by `Kind` the match would have arms for all five and for none.
fn row_has_form(row: Row) -> bool
    ensures { result ≡ row_form row }
{
    if row.code == Kind::VOCAB {
        return is_vocab(row.second);
    }
    if row.code == Kind::FLOAT {
        return is_finite(row.third);
    }
    true
}

pub fn have_form(rows: &[u8]) -> bool
    ensures { result ≡ rows_form (unpacked rows.now) }
{
    for i in 0..row_count(rows) {
        if !row_has_form(list::row_at(rows, i)) {
            return false;
        }
    }
    true
}
