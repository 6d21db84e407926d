// The bytes of a list, straight into the buffer. There is room for what each of these functions writes.
// Buffer and place stay two parameters: the place moves once a row, by `row_size`, which judging takes too; a writer that moves with each
// number would have to be shown to end there. The buffer is a slice with a list's room, and no array of that size: what writes numbers and
// bytes takes slices, and each call would cut the array to one.
ghost use Rattle.std.specs.Prelude.{◌+◌, ◌≤◌, ◌≡◌, ◌++◌, length};
ghost use Rattle.std.proofs.lemmas.List.Edits.{sets};
ghost use Rattle.list.specs.Kind.{kind_of};
ghost use Rattle.list.specs.Limits.{list_limit};
ghost use Rattle.list.specs.Strings.{string_length};
ghost use Rattle.list.specs.Bytes.{number, string_bytes, value_bytes};
ghost use Rattle.list.specs.RowBytes.{unpacked};
ghost use Rattle.list_rows.specs.Described.{value_of};
ghost use Rattle.list_rows.specs.Row.{kind_stored, stored};
ghost use Rattle.list_rows.specs.Emit.{found_bytes, row_bytes, emit, kind_size, found_size, row_size, size_from, stored_from};

use list::{Kind, LIST_CODE, NUMBER, Row, TERMINATOR};
use list_rows::{code_ahead, left_after, row_count, row_size, stored_by};

// A length, and bytes of the store behind it.
fn put_counted(buffer: &mut [u8], at: usize, count: u32, bytes: &[u8])
    requires { at + (4 + length bytes.now) ≤ length buffer.old }
    ensures { buffer.new ≡ sets buffer.old at (number count ++ bytes.now) }
{
    numbers::put_u32(buffer, at, count);
    wire::copy_at(buffer, at + NUMBER, bytes);
}

// The bytes of a string with what stands behind them; there are `size` of them.
fn put_string(buffer: &mut [u8], at: usize, size: u32, bytes: &[u8])
    requires { (at + (4 + string_length size) ≤ list_limit) × (list_limit ≤ length buffer.old) × (length bytes.now ≡ size) }
    ensures { buffer.new ≡ sets buffer.old at (string_bytes bytes.now) }
{
    put_counted(buffer, at, size + TERMINATOR, bytes);
    buffer[at + NUMBER + bytes.len()] = 0;
}

fn put_kind(buffer: &mut [u8], at: usize, bytes: &[u8], row: Row, kind: Kind)
    requires { (at + kind_size row.third kind ≤ list_limit) × (list_limit ≤ length buffer.old) × (length bytes.now ≡ kind_stored row.third kind) }
    ensures { buffer.new ≡ sets buffer.old at (value_bytes (value_of bytes.now row.second row.third kind)) }
{
    match kind {
        Kind::Int => numbers::put_u32(buffer, at, row.second),
        Kind::Float => numbers::put_two_u32(buffer, at, row.second, row.third),
        Kind::Str => put_string(buffer, at, row.third, bytes),
        Kind::Blob => put_counted(buffer, at, row.third, bytes),
        Kind::Vocab => numbers::put_u32(buffer, at, row.second),
    }
}

// An element, without its code.
fn put_value(buffer: &mut [u8], at: usize, bytes: &[u8], row: Row)
    requires { (at + found_size row.third (kind_of row.code) ≤ list_limit) × (list_limit ≤ length buffer.old) × (length bytes.now ≡ stored row) }
    ensures { buffer.new ≡ sets buffer.old at (found_bytes bytes.now row.second row.third (kind_of row.code)) }
{
    if let Some(kind) = Kind::of_code(row.code) {
        put_kind(buffer, at, bytes, row, kind);
    }
}

fn put_coded(buffer: &mut [u8], at: usize, bytes: &[u8], code: u32, row: Row)
    requires { (at + (4 + found_size row.third (kind_of row.code)) ≤ list_limit) × (list_limit ≤ length buffer.old) × (length bytes.now ≡ stored row) }
    ensures { buffer.new ≡ sets buffer.old at (number code ++ found_bytes bytes.now row.second row.third (kind_of row.code)) }
{
    numbers::put_u32(buffer, at, code);
    put_value(buffer, at + NUMBER, bytes, row);
}

// A row's element, or a list's code and count; `left` elements come without a code, and `bytes` are those of the store.
fn put_row(buffer: &mut [u8], at: usize, bytes: &[u8], left: usize, code: u32, row: Row)
    requires { (at + row_size left row ≤ list_limit) × (list_limit ≤ length buffer.old) × (length bytes.now ≡ stored row) }
    ensures { buffer.new ≡ sets buffer.old at (row_bytes bytes.now left code row) }
{
    if row.code == LIST_CODE {
        numbers::put_two_u32(buffer, at, code, row.second);
        return;
    }
    if left == 0 {
        put_coded(buffer, at, bytes, code, row);
        return;
    }
    put_value(buffer, at, bytes, row);
}

pub fn emit_rows(rows: &[u8], store: &[u8], buffer: &mut [u8])
    requires { (size_from (unpacked rows.now) 0 ≤ list_limit) × (stored_from (unpacked rows.now) ≤ length store.now) × (list_limit ≤ length buffer.old) }
    ensures { buffer.new ≡ sets buffer.old 0 (emit store.now (unpacked rows.now) 0 0) }
{
    let count = row_count(rows);
    let mut left = 0;
    let mut used = 0;
    let mut end = 0;
    for i in 0..count {
        let row = list::row_at(rows, i);
        let code = code_ahead(rows, i + 1, row);
        let size = stored_by(row);
        put_row(buffer, end, &store[used..used + size], left, code, row);
        end += row_size(left, row);
        left = left_after(left, code, row);
        used += size;
    }
}
