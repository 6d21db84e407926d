// Lists: read into rows, and written again where they were accepted.
use super::{Line, show};
use list::{LIST_LIMIT, NUMBER, ROW, ROW_BYTES, STORE_ROOM};

// The most numbers of a case: one more than a list may have.
const NUMBERS: usize = LIST_LIMIT / NUMBER + 1;

// The rows of a list up to this many are shown.
const SHOWN: usize = 12;

// Whether the list of these rows and this store has these bytes.
fn is_written_as(rows: &[u8], store: &[u8], bytes: &[u8]) -> bool {
    let mut buffer = [0u8; LIST_LIMIT];
    match list_encode::encode(rows, store, &mut buffer) {
        Ok(n) => buffer.get(..n) == Some(bytes),
        Err(_) => false,
    }
}

fn contents(out: &mut Line, rows: &[u8], store: &[u8]) {
    if rows.len() <= ROW * SHOWN {
        show::rows(out, b":", rows);
        if !store.is_empty() {
            show::hex(out, b", store ", store);
        }
    }
}

fn accepted(out: &mut Line, bytes: &[u8], rows: &[u8], store: &[u8]) {
    if is_written_as(rows, store, bytes) {
        out.put(b", written again the same");
    }
    contents(out, rows, store);
}

// The list at the front of the bytes.
pub fn case(out: &mut Line, name: &[u8], bytes: &[u8]) {
    let mut rows = [0u8; ROW_BYTES];
    let mut store = [0u8; STORE_ROOM];
    out.put(name);
    match list_decode::decode(bytes, &mut rows, &mut store) {
        Ok(list) => {
            let n = list.rows as usize;
            out.put_number(b": bytes ", list.consumed as u64);
            out.put_number(b" rows ", list.rows as u64);
            if let Some(in_rows) = rows.get(..ROW * n) {
                if let Some(in_store) = store.get(..list.stored) {
                    accepted(out, bytes, in_rows, in_store);
                }
            }
        }
        Err(refusal) => {
            out.put_number(b": refused ", refusal.error.number() as u64);
            out.put_number(b" at ", refusal.offset as u64);
            out.put_number(b" depth ", refusal.depth as u64);
        }
    }
    show::end_line(out);
}

fn put_numbers(buffer: &mut [u8], numbers: &[u32]) {
    for (place, x) in buffer.chunks_exact_mut(NUMBER).zip(numbers) {
        place.copy_from_slice(&x.to_le_bytes());
    }
}

// The list of these numbers.
fn numbers(out: &mut Line, name: &[u8], s: &[u32]) {
    let mut buffer = [0u8; NUMBER * NUMBERS];
    put_numbers(&mut buffer, s);
    if let Some(bytes) = buffer.get(..NUMBER * s.len()) {
        case(out, name, bytes);
    }
}

// n NetInts.
fn ints(out: &mut Line, name: &[u8], n: usize) {
    if NUMBERS - 2 < n {
        return;
    }
    let mut s = [5u32; NUMBERS];
    s[0] = 257;
    s[1] = n as u32;
    numbers(out, name, &s[0..n + 2]);
}

// A string's length, and its bytes with the zero.
fn put_string(buffer: &mut [u8], at: usize, s: &[u8]) {
    if LIST_LIMIT < at {
        return;
    }
    if LIST_LIMIT < s.len() {
        return;
    }
    numbers::put_u32(buffer, at, s.len() as u32);
    wire::copy_at(buffer, at + NUMBER, s);
}

// (91 92 93) (this is a "good list")
fn two_lists(out: &mut Line) {
    let mut buffer = [0u8; 72];
    put_numbers(&mut buffer, &[256, 2, 257, 3, 91, 92, 93, 260, 4]);
    put_string(&mut buffer, 36, b"this\0");
    put_string(&mut buffer, 45, b"is\0");
    put_string(&mut buffer, 52, b"a\0");
    put_string(&mut buffer, 58, b"good list\0");
    case(out, b"Two lists", &buffer);
}

// Lists that each hold the next one, the innermost empty.
fn nested(out: &mut Line) {
    let mut buffer = [0u8; 72];
    for place in buffer.chunks_exact_mut(2 * NUMBER) {
        put_numbers(place, &[256, 1]);
    }
    numbers::put_u32(&mut buffer, 60, 0);
    case(out, b"Eight nested lists", &buffer[0..64]);
    numbers::put_u32(&mut buffer, 60, 1);
    numbers::put_u32(&mut buffer, 68, 0);
    case(out, b"Nine nested lists", &buffer);
}

pub fn run(out: &mut Line) {
    numbers(out, b"Primes", &[257, 8, 2, 3, 5, 7, 11, 13, 17, 19]);
    two_lists(out);
    numbers(out, b"256 0", &[256, 0]);
    numbers(out, b"257 0", &[257, 0]);
    numbers(out, b"256 1 1 5", &[256, 1, 1, 5]);
    numbers(out, b"512 0", &[512, 0]);
    nested(out);
    ints(out, b"1022 NetInts", 1022);
    ints(out, b"1023 NetInts", 1023);
}
