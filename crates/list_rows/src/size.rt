// How many bytes a list has.
ghost use Rattle.std.specs.Prelude.{◌≤◌, ◌^◌, ◌≡◌};
ghost use Rattle.list.specs.Kind.{kind_of};
ghost use Rattle.list.specs.Limits.{list_limit};
ghost use Rattle.list.specs.RowBytes.{unpacked};
ghost use Rattle.list_rows.specs.Emit.{kind_tail, kind_size, found_size, row_size, size_from, capped};

use super::look::{code_ahead, left_after};
use super::row::{row_count, wide};
use list::{Kind, LIST_CODE, LIST_LIMIT, NUMBER, Row, TERMINATOR};

// Behind a string's length stand its bytes and its terminator, behind a blob's its bytes.
fn kind_tail(third: u32, kind: Kind) -> usize
    ensures { (result ≡ kind_tail third kind) × (result ≤ 2 ^ 32) }
{
    match kind {
        Kind::Int => 0,
        Kind::Float => 0,
        Kind::Str => wide(third) + wide(TERMINATOR),
        Kind::Blob => wide(third),
        Kind::Vocab => 0,
    }
}

#[tactic(auto, using(crate::proofs::Rows::size_low))]
fn kind_size(third: u32, kind: Kind) -> usize
    ensures { (result ≡ kind_size third kind) × (result ≤ 2 ^ 33) }
{
    kind.size() + kind_tail(third, kind)
}

fn value_size(row: Row) -> usize
    ensures { (result ≡ found_size row.third (kind_of row.code)) × (result ≤ 2 ^ 33) }
{
    match Kind::of_code(row.code) {
        Some(kind) => kind_size(row.third, kind),
        None => 0,
    }
}

// The bytes of a row where `left` elements come without a code.
#[tactic(auto, unfolding(crate::specs::Emit::row_size))]
pub fn row_size(left: usize, row: Row) -> usize
    ensures { (result ≡ row_size left row) × (result ≤ 2 ^ 34) }
{
    if row.code == LIST_CODE {
        return 2 * NUMBER;
    }
    if left == 0 {
        return NUMBER + value_size(row);
    }
    value_size(row)
}

// The number of bytes, or one more than the limit where there are more.
pub fn measure(rows: &[u8]) -> usize
    ensures { result ≡ capped list_limit (size_from (unpacked rows.now) 0) }
{
    let count = row_count(rows);
    let mut left = 0;
    let mut total = 0;
    for i in 0..count {
        let row = list::row_at(rows, i);
        total += row_size(left, row);
        if LIST_LIMIT < total {
            return LIST_LIMIT + 1;
        }
        left = left_after(left, code_ahead(rows, i + 1, row), row);
    }
    total
}
