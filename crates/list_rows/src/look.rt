// Looking ahead for a list's code: its elements' rows come next, or a nested list's row is among as many rows as it counts.
// Every row but the first is counted by exactly one list, so all look-aheads together take no more steps than there are rows.
ghost use Rattle.std.specs.Prelude.{◌≡◌};
ghost use Rattle.list.specs.RowBytes.{unpacked};
ghost use Rattle.list_rows.specs.Row.{rows_from};
ghost use Rattle.list_rows.specs.Emit.{common_in, typed_or, code_ahead, left_after};

use super::row::{row_count, wide};
use list::{LIST_CODE, Row};

// The code that n elements have in common whose rows stand from row `first` on.
fn common_in(rows: &[u8], first: usize, n: usize) -> u32
    ensures { result ≡ common_in 0 n (rows_from (unpacked rows.now) first) }
{
    let mut seen = 0;
    let mut left = n;
    for i in first..row_count(rows) {
        if left == 0 {
            return seen;
        }
        let row = list::row_at(rows, i);
        seen = list::common_code(seen, row.code);
        left -= 1;
    }
    seen
}

// The code of a list whose elements have `seen` in common.
#[tactic(auto, unfolding(crate::specs::Emit::typed_or))]
fn typed_or(seen: u32) -> u32
    ensures { result ≡ typed_or seen }
{
    if seen == 0 {
        return LIST_CODE;
    }
    if seen < LIST_CODE {
        return LIST_CODE + seen;
    }
    LIST_CODE
}

// The code of the element of a row, with the rows from row `next` on behind it.
#[tactic(auto, unfolding(crate::specs::Emit::code_ahead))]
pub fn code_ahead(rows: &[u8], next: usize, row: Row) -> u32
    ensures { result ≡ code_ahead (rows_from (unpacked rows.now) next) row }
{
    if row.code == LIST_CODE {
        return typed_or(common_in(rows, next, wide(row.second)));
    }
    row.code
}

// How many elements come without a code behind a row of the code `code`.
#[tactic(auto, unfolding(crate::specs::Emit::left_after))]
pub fn left_after(left: usize, code: u32, row: Row) -> usize
    ensures { result ≡ left_after left code row }
{
    if row.code == LIST_CODE {
        if code == LIST_CODE {
            return 0;
        }
        return wide(row.second);
    }
    left.saturating_sub(1)
}
