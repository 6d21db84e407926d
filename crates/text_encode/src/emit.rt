// The text of a list, straight into the area. There is room for what each of these functions writes.
ghost use Rattle.std.specs.Prelude.{ℕ, ◌≤◌, ◌<◌, ◌≡◌, List, [], ◌∷◌, length};
ghost use Rattle.list.specs.RowBytes.{unpacked};
ghost use Rattle.list_rows.specs.Described.{value_of};
ghost use Rattle.list_rows.specs.Row.{rows_in};
ghost use Rattle.list_rows.specs.Emit.{stored_from};
ghost use Rattle.text.specs.Text.{value_text};
ghost use Rattle.text_encode.specs.Spell.{row_text, closing, spell_list, value_next, place, opened, closed, Underway, GoesOn, Stopped};
ghost use Rattle.text_encode.specs.Writer.{HasRoom, Wrote};

use crate::writer::Writer;
use list::{DEPTH_LIMIT, Kind, LIST_CODE, Row};
use list_rows::{row_count, stored_by};

// Where the writing stands in the rows and in the store, and how many elements of the innermost open list are still to come.
#[derive(Clone, Copy)]
pub struct Cursor {
    pub row: usize,
    pub used: usize,
    pub left: usize,
}

impl<'a> Writer<'a> {
    fn put_kind(&mut self, bytes: &[u8], row: Row, kind: Kind)
        requires { HasRoom self.old (value_text (value_of bytes.now row.second row.third kind)) }
        ensures { Wrote self.old self.new (value_text (value_of bytes.now row.second row.third kind)) }
    {
        match kind {
            Kind::Int => self.put_int(row.second),
            Kind::Float => self.put_float(row.second, row.third),
            Kind::Str => self.put_string(bytes),
            Kind::Blob => self.put_blob(bytes),
            Kind::Vocab => self.put_vocab(row.second),
        }
    }

    // The text of a row's element; `bytes` are those of the store. A row of an unknown code has none.
    fn put_value(&mut self, bytes: &[u8], row: Row)
        requires { HasRoom self.old (row_text bytes.now row) }
        ensures { Wrote self.old self.new (row_text bytes.now row) }
    {
        if let Some(kind) = Kind::of_code(row.code) {
            self.put_kind(bytes, row, kind);
        }
    }
}

// Is an element of the innermost open list next that is no list itself?
fn is_value_next(rows: &[u8], at: usize, left: usize) -> bool
    ensures { result ≡ value_next (unpacked rows.now) at left }
{
    if left == 0 {
        return false;
    }
    if row_count(rows) <= at {
        return false;
    }
    let row = list::row_at(rows, at);
    row.code != LIST_CODE
}

// The elements up to the next list, or up to the end of the innermost open list; a space stands behind each that is not the last.
// Rows and store stay beside the cursor and the writer: they are lent apart (`encode` takes what C lends), and are only read.
fn put_values(rows: &[u8], store: &[u8], out: &mut Writer<'_>, mut x: Cursor) -> Cursor
    requires { (whole : List ℕ) × (size : ℕ) × (outer : List ℕ)
        × Underway (unpacked rows.now) store.now whole size out.old.text.now outer (place x out.old) }
    ensures same_area { out.new.text.ghost_name ≡ out.old.text.ghost_name }
    ensures goes_on { GoesOn (unpacked rows.now) store.now out.old.text.now (place x out.old) out.new.text.now (place result out.new) }
    ensures stopped { Stopped (unpacked rows.now) (place x out.old) (place result out.new) }
{
    // No `for`: the next list ends the elements as well as their number does.
    while is_value_next(rows, x.row, x.left) {
        let row = list::row_at(rows, x.row);
        x.row += 1;
        x.left -= 1;
        let end = x.used + stored_by(row);
        out.put_value(&store[x.used..end], row);
        out.put_gap(x.left == 0);
        x.used = end;
    }
    x
}

// Opens the list whose row is next.
fn open_list(rows: &[u8], out: &mut Writer<'_>, x: Cursor) -> Cursor
    requires { (x.row < rows_in (unpacked rows.now)) × HasRoom out.old (40 ∷ []) }
    ensures written { Wrote out.old out.new (40 ∷ []) }
    ensures to { place result out.new ≡ opened (unpacked rows.now) (place x out.old) }
{
    let row = list::row_at(rows, x.row);
    out.put(b'(');
    Cursor {
        row: x.row + 1,
        left: row.second as usize,
        ..x
    }
}

// Closes the innermost open list; `left` elements of the list around it are still to come.
fn close_list(out: &mut Writer<'_>, x: Cursor, left: usize) -> Cursor
    requires { HasRoom out.old (closing left) }
    ensures written { Wrote out.old out.new (closing left) }
    ensures to { place result out.new ≡ closed left (place x out.old) }
{
    out.put(b')');
    out.put_gap(left == 0);
    Cursor { left, ..x }
}

// All of a list. `outer` holds how many elements are still to come of each list around the innermost open one, the outermost first, in
// fixed memory, as the product has no heap.
pub fn put_list(rows: &[u8], store: &[u8], out: &mut Writer<'_>)
    requires { (stored_from (unpacked rows.now) ≤ length store.now) × HasRoom out.old (spell_list (unpacked rows.now) store.now) }
    ensures { Wrote out.old out.new (spell_list (unpacked rows.now) store.now) }
{
    let count = row_count(rows);
    let first = list::row_at(rows, 0);
    let mut outer = [0; DEPTH_LIMIT];
    let mut level = 0;
    let mut x = Cursor {
        row: 1,
        used: 0,
        left: first.second as usize,
    };
    // No `for`: a list that is closed takes no row.
    loop {
        let y = put_values(rows, store, out, x);
        if y.left == 0 {
            if level == 0 {
                return;
            }
            level -= 1;
            x = close_list(out, y, outer[level]);
        } else {
            // Neither holds for rows that were judged.
            if count <= y.row {
                return;
            }
            if level == DEPTH_LIMIT - 1 {
                return;
            }
            outer[level] = y.left - 1;
            level += 1;
            x = open_list(rows, out, y);
        }
    }
}
