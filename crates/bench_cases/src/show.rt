// Bytes and rows in a line of output, and its end.
use super::Line;
use list::ROW;

// Bytes, two digits each.
pub fn hex(out: &mut Line, before: &[u8], bytes: &[u8]) {
    out.put(before);
    out.put_bytes(bytes);
}

pub fn rows(out: &mut Line, before: &[u8], bytes: &[u8]) {
    out.put(before);
    for i in 0..bytes.len() / ROW {
        if i != 0 {
            out.put(b",");
        }
        let row = list::row_at(bytes, i);
        out.put_number(b" ", row.code as u64);
        out.put_number(b" ", row.second as u64);
        out.put_number(b" ", row.third as u64);
    }
}

// What was collected is written, and the next line begins at the front.
pub fn end_line(out: &mut Line) {
    out.put(b"\n");
    out.flush();
    out.used = 0;
}
