// Does a list stand too deep?
ghost use Rattle.std.specs.Prelude.{◌≡◌};
ghost use Rattle.list.specs.RowBytes.{unpacked};
ghost use Rattle.list_rows.specs.Nesting.{too_deep};

use super::row::{row_count, wide};
use list::{DEPTH_LIMIT, LIST_CODE};

// `left` elements are still to come of the innermost open list, and `outer` says the same of the `level` lists around it, the outermost first,
// in fixed memory, as the product has no heap.
pub fn is_too_deep(rows: &[u8]) -> bool
    ensures { result ≡ too_deep (unpacked rows.now) }
{
    let count = row_count(rows);
    let mut outer = [0; DEPTH_LIMIT];
    let mut level = 0;
    let front = list::row_at(rows, 0);
    let mut left = wide(front.second);
    let mut i = 1;
    // No `for`: where a list ends, a turn takes no row.
    while i < count {
        if left == 0 {
            if level == 0 {
                return false;
            }
            level -= 1;
            left = outer[level];
        } else {
            let row = list::row_at(rows, i);
            i += 1;
            left -= 1;
            if row.code == LIST_CODE {
                if level == DEPTH_LIMIT - 1 {
                    return true;
                }
                outer[level] = left;
                level += 1;
                left = wide(row.second);
            }
        }
    }
    false
}
