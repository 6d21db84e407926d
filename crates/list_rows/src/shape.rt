// Do rows and store describe exactly one list? Judged at any depth and for any number of rows.
ghost use Rattle.std.specs.Prelude.{◌≤◌, ◌≡◌, true, ◌&&◌, length};
ghost use Rattle.list.specs.RowBytes.{unpacked};
ghost use Rattle.list_rows.specs.Described.{whole_rows};
ghost use Rattle.list_rows.specs.Shape.{placed, textual, kind_fits, row_fits, shape, list_shape};

use super::row::{gained_by, row_count, stored_by, wide};
use list::{Kind, LIST_CODE, NEGATIVE, ROW, Row};

// Are the bytes that a row names the next ones of the store? The store goes with the count of its used bytes here and below: a row's offset
// is compared with that count, so what is left of the store would not do alone. So each of the four asks that it is at most the store's
// length.
fn is_placed(store: &[u8], used: usize, offset: u32, size: u32) -> bool
    requires { used ≤ length store.now }
    ensures { result ≡ placed store.now used offset size }
{
    (wide(offset) == used) & ((size < NEGATIVE) & (wide(size) <= store.len() - used))
}

// And are they as a string's bytes must be?
fn is_text(store: &[u8], used: usize, offset: u32, size: u32) -> bool
    requires { used ≤ length store.now }
    ensures { result ≡ textual store.now used offset size }
{
    if is_placed(store, used, offset, size) {
        return !wire::has_zero(&store[used..used + wide(size)]);
    }
    false
}

#[tactic(auto, unfolding(crate::specs::Shape::kind_fits))]
fn kind_fits(store: &[u8], used: usize, second: u32, third: u32, kind: Kind) -> bool
    requires { used ≤ length store.now }
    ensures { result ≡ kind_fits store.now used second third kind }
{
    match kind {
        Kind::Int => third == 0,
        Kind::Float => true,
        Kind::Str => is_text(store, used, second, third),
        Kind::Blob => is_placed(store, used, second, third),
        Kind::Vocab => third == 0,
    }
}

// Is this a row as it may stand behind `used` bytes of the store?
fn row_fits(store: &[u8], used: usize, row: Row) -> bool
    requires { used ≤ length store.now }
    ensures { result ≡ row_fits store.now used row }
{
    if row.code == LIST_CODE {
        return (row.second < NEGATIVE) & (row.third == 0);
    }
    match Kind::of_code(row.code) {
        Some(kind) => kind_fits(store, used, row.second, row.third, kind),
        None => false,
    }
}

// Are the rows those of one element, and the store its bytes? `want` elements are still to come.
fn is_element(rows: &[u8], store: &[u8]) -> bool
    requires { whole_rows rows.now ≡ true }
    ensures { result ≡ shape store.now (unpacked rows.now) 1 0 }
{
    let count = row_count(rows);
    let mut want = 1;
    let mut used = 0;
    for i in 0..count {
        if want == 0 {
            return false;
        }
        if count - i < want {
            return false;
        }
        let row = list::row_at(rows, i);
        if !row_fits(store, used, row) {
            return false;
        }
        want = want - 1 + gained_by(row);
        used += stored_by(row);
    }
    (want == 0) & (used == store.len())
}

#[tactic(auto, unfolding(crate::specs::Shape::list_shape))]
pub fn is_list(rows: &[u8], store: &[u8]) -> bool
    ensures { result ≡ (whole_rows rows.now && list_shape (unpacked rows.now) store.now) }
{
    if rows.len() % ROW != 0 {
        return false;
    }
    if list::number_at(rows, 0) == LIST_CODE {
        return is_element(rows, store);
    }
    false
}
