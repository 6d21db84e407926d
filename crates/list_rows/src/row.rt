// One row of a list: the elements that it adds to those wanted, and the store bytes that it uses.
ghost use Rattle.std.specs.Prelude.{◌*◌, ◌≤◌, ◌<◌, ◌^◌, ◌≡◌, length};
ghost use Rattle.list.specs.RowBytes.{unpacked};
ghost use Rattle.list_rows.specs.Described.{row_width};
ghost use Rattle.list_rows.specs.Row.{rows_in, gained, kind_stored, stored};

use list::{Kind, LIST_CODE, ROW, Row};

// How many whole rows there are.
pub fn row_count(rows: &[u8]) -> usize
    ensures { (result ≡ rows_in (unpacked rows.now)) × (row_width * result ≤ length rows.now) }
{
    rows.len() / ROW
}

// A 32-bit number as an index. By `as`: there is no `From<u32>` for `usize`.
pub fn wide(x: u32) -> usize
    ensures { (result ≡ x) × (result < 2 ^ 32) }
{
    x as usize
}

// The elements that a row adds to those still wanted.
#[tactic(auto, unfolding(crate::specs::Row::gained))]
pub fn gained_by(row: Row) -> usize
    ensures { (result ≡ gained row) × (result < 2 ^ 32) }
{
    if row.code == LIST_CODE {
        return wide(row.second);
    }
    0
}

// The bytes of the store that a row uses.
#[tactic(auto, unfolding(crate::specs::Row::stored))]
pub fn stored_by(row: Row) -> usize
    ensures { (result ≡ stored row) × (result < 2 ^ 32) }
{
    match Kind::of_code(row.code) {
        Some(kind) => kind_stored(kind, row.third),
        None => 0,
    }
}

// A kind goes with the row's third number, here and in size.rt: the row itself has a code, of which each function would ask for the kind anew.
fn kind_stored(kind: Kind, third: u32) -> usize
    ensures { (result ≡ kind_stored third kind) × (result < 2 ^ 32) }
{
    match kind {
        Kind::Int => 0,
        Kind::Float => 0,
        Kind::Str => wide(third),
        Kind::Blob => wide(third),
        Kind::Vocab => 0,
    }
}
