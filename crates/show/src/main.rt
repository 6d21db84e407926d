// Reads a stream of lists from standard input and prints the text of each list, and one line for what stands behind them.
#![tactic(auto)]

ghost use Rattle.std.specs.Prelude.{◌+◌, ◌*◌, ◌≤◌, ◌≡◌, length, take};
ghost use Rattle.io.specs.Counts.{IsPrefixLen};
ghost use Rattle.list.specs.Limits.{list_limit, row_room, store_room};
ghost use Rattle.list.specs.Tree.{Elements};
ghost use Rattle.list.specs.Legal.{Legal};
ghost use Rattle.list_rows.specs.Judge.{accepted, to_write};
ghost use Rattle.text.specs.Text.{text_room};
ghost use Rattle.report.specs.Limits.{input_limit};
ghost use Rattle.report.specs.Added.{Added};
ghost use Rattle.report.specs.Text.{text_of};
ghost use Rattle.show.specs.Limits.{lines_room};
ghost use Rattle.show.specs.Text.{text_line, line_of, shown};
ghost use Rattle.show.specs.Held.{Held};

use list::{ROW, ROW_BYTES, STORE_ROOM};
use list_decode::Decoded;
use output::Output;
use report::INPUT_LIMIT;
use text::TEXT_ROOM;

// The number of the standard input.
const STDIN_FILENO: i32 = 0;

// A line has at most four characters for each byte of its list; behind the lines, the room that text writing asks for.
const LINES_ROOM: usize = 4 * INPUT_LIMIT + TEXT_ROOM;

fn main() {
    // One byte more than the limit is read, to tell.
    let mut input = [0u8; INPUT_LIMIT + 1];
    let n = io::read_full(STDIN_FILENO, &mut input);
    let mut rows = [0u8; ROW_BYTES];
    let mut store = [0u8; STORE_ROOM];
    let mut out = Output::<LINES_ROOM>::new();
    report(&input[..n], &mut rows, &mut store, &mut out);
    out.flush();
}

// What is printed for the bytes that were read.
fn report(
    bytes: &[u8],
    rows: &mut [u8; ROW_BYTES],
    store: &mut [u8; STORE_ROOM],
    out: &mut Output<LINES_ROOM>,
)
    requires { (length out.old.buffer ≡ lines_room) × (out.old.used ≡ 0) }
    ensures { (take out.new.used out.new.buffer ≡ shown bytes.now) × (out.new.used ≤ length out.new.buffer) }
{
    if report::is_too_long(bytes) {
        report::put_too_long(out);
        return;
    }
    stream_text(bytes, rows, store, out)
}

// All lines of a stream.
fn stream_text(
    bytes: &[u8],
    rows: &mut [u8; ROW_BYTES],
    store: &mut [u8; STORE_ROOM],
    out: &mut Output<LINES_ROOM>,
)
    requires { (length bytes.now ≤ input_limit) × (length out.old.buffer ≡ lines_room) × (out.old.used ≡ 0) }
    ensures { (take out.new.used out.new.buffer ≡ text_of line_of bytes.now) × (out.new.used ≤ length out.new.buffer) }
{
    let mut offset: usize = 0;
    // Where the next list stands is known when one is read, and a refusal ends the way as an end does: no `for` goes so.
    loop {
        match stream::next(bytes, offset, rows, store) {
            Ok(Some(list)) => {
                put_list(rows, store, list, out);
                offset += list.consumed;
            }
            Ok(None) => return report::put_end(out, offset),
            Err(refusal) => return report::put_stop(out, refusal),
        }
    }
}

// The line of a list whose rows and store bytes stand at the front of their areas.
fn put_list(rows: &[u8], store: &[u8], list: Decoded, out: &mut Output<LINES_ROOM>)
    requires { ((es : Elements) × Held rows.now list.rows store.now list.stored es) × (out.old.used + text_room + 1 ≤ length out.old.buffer) }
    ensures line { (es : Elements) → Held rows.now list.rows store.now list.stored es → Added out.old.buffer out.old.used out.new.buffer out.new.used (text_line es) }
    ensures room { length out.new.buffer ≡ length out.old.buffer }
{
    put_text(
        &rows[..ROW * list.rows as usize],
        &store[..list.stored],
        out,
    );
}

// The line of the list that rows and store describe.
fn put_text(rows: &[u8], store: &[u8], out: &mut Output<LINES_ROOM>)
    requires { ((es : Elements) × (Legal list_limit es × (to_write rows.now store.now ≡ accepted es))) × (out.old.used + text_room + 1 ≤ length out.old.buffer) }
    ensures line { (es : Elements) → to_write rows.now store.now ≡ accepted es → Added out.old.buffer out.old.used out.new.buffer out.new.used (text_line es) }
    ensures room { length out.new.buffer ≡ length out.old.buffer }
{
    let end = out.used + TEXT_ROOM;
    match text_encode::encode(rows, store, &mut out.buffer[out.used..end]) {
        Ok(n) => {
            out.used += n;
            out.put(b"\n");
        }
        Err(error) => out.put_line(b"refused ", error.number() as u64),
    }
}
