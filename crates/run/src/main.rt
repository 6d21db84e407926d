// Reads a stream of lists from standard input and prints a line for each list, and one for what stands behind them.
#![tactic(auto)]

ghost use Rattle.std.specs.Prelude.{◌+◌, ◌*◌, ◌≤◌, ◌≡◌, length, take};
ghost use Rattle.io.specs.Counts.{IsPrefixLen};
ghost use Rattle.list.specs.Limits.{row_room, store_room};
ghost use Rattle.report.specs.Limits.{input_limit};
ghost use Rattle.report.specs.Added.{Added};
ghost use Rattle.report.specs.Text.{text_of, program_text};
ghost use Rattle.run.specs.Limits.{longest_line, text_room};
ghost use Rattle.run.specs.Text.{list_line, line_of};

use list::{NUMBER, ROW_BYTES, STORE_ROOM};
use list_decode::Decoded;
use output::Output;
use report::INPUT_LIMIT;

// The number of the standard input.
const STDIN_FILENO: i32 = 0;

// The longest line: three labels, 18 bytes together, three numbers of up to 20 digits and a newline.
const LONGEST_LINE: usize = 18 + 3 * 20 + 1;

// A list has a code and a count at least: a line for each list that the input may hold, and the last line.
const TEXT_ROOM: usize = LONGEST_LINE * (INPUT_LIMIT / (2 * NUMBER) + 1);

fn main() {
    // One byte more than the limit is read, to tell.
    let mut input = [0u8; INPUT_LIMIT + 1];
    let n = io::read_full(STDIN_FILENO, &mut input);
    let mut rows = [0u8; ROW_BYTES];
    let mut store = [0u8; STORE_ROOM];
    let mut out = Output::<TEXT_ROOM>::new();
    report(&input[..n], &mut rows, &mut store, &mut out);
    out.flush();
}

// What is printed for the bytes that were read.
fn report(
    bytes: &[u8],
    rows: &mut [u8; ROW_BYTES],
    store: &mut [u8; STORE_ROOM],
    out: &mut Output<TEXT_ROOM>,
)
    requires { (length out.old.buffer ≡ text_room) × (out.old.used ≡ 0) }
    ensures { (take out.new.used out.new.buffer ≡ program_text line_of bytes.now) × (out.new.used ≤ length out.new.buffer) }
{
    if report::is_too_long(bytes) {
        report::put_too_long(out);
        return;
    }
    stream_text(bytes, rows, store, out)
}

// All lines of a stream.
fn stream_text(
    bytes: &[u8],
    rows: &mut [u8; ROW_BYTES],
    store: &mut [u8; STORE_ROOM],
    out: &mut Output<TEXT_ROOM>,
)
    requires { (length bytes.now ≤ input_limit) × (length out.old.buffer ≡ text_room) × (out.old.used ≡ 0) }
    ensures { (take out.new.used out.new.buffer ≡ text_of line_of bytes.now) × (out.new.used ≤ length out.new.buffer) }
{
    let mut offset: usize = 0;
    let mut k: u64 = 1;
    // Where the next list stands is known when one is read, and a refusal ends the way as an end does: no `for` goes so.
    loop {
        match stream::next(bytes, offset, rows, store) {
            Ok(Some(list)) => {
                put_list(out, k, list);
                offset += list.consumed;
                k += 1;
            }
            Ok(None) => return report::put_end(out, offset),
            Err(refusal) => return report::put_stop(out, refusal),
        }
    }
}

// `list 1 bytes 40 rows 9`
fn put_list(out: &mut Output<TEXT_ROOM>, k: u64, list: Decoded)
    requires { out.old.used + longest_line ≤ length out.old.buffer }
    ensures { Added out.old.buffer out.old.used out.new.buffer out.new.used (list_line k list.consumed list.rows) × (out.new.used ≤ out.old.used + longest_line) × (length out.new.buffer ≡ length out.old.buffer) }
{
    out.put_number(b"list ", k);
    out.put_number(b" bytes ", list.consumed as u64);
    out.put_line(b" rows ", list.rows as u64);
}
