// Judging the rows and the store of a list before it is written, and what a writer looks up row by row.
#![tactic(auto)]

mod depth;
mod look;
mod row;
mod shape;
mod size;

ghost use Rattle.std.specs.Prelude.{◌≡◌};
ghost use Rattle.list_rows.specs.Judge.{verdict_of, judging_of};

use depth::is_too_deep;
use errors::Error;
use list::LIST_LIMIT;
pub use look::{code_ahead, left_after};
pub use row::{row_count, stored_by};
use shape::is_list;
use size::measure;
pub use size::row_size;

// How many bytes has the list that rows and store describe, where they describe exactly one, neither too deep nor too long?
pub fn judge(rows: &[u8], store: &[u8]) -> Result<usize, Error>
    ensures { verdict_of result ≡ judging_of rows.now store.now }
{
    if !is_list(rows, store) {
        return Err(Error::NoList);
    }
    if is_too_deep(rows) {
        return Err(Error::TooDeep);
    }
    let n = measure(rows);
    if LIST_LIMIT < n {
        return Err(Error::TooLong);
    }
    Ok(n)
}
