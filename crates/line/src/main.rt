// Reads what a socket's line brought from standard input and prints what is found there: a text line for each finding, and one for the end.
#![tactic(auto)]

ghost use Rattle.std.specs.Prelude.{◌+◌, ◌-◌, ◌≤◌, ◌≡◌, length, take};
ghost use Rattle.errors.specs.Number.{number_of};
ghost use Rattle.packet.specs.Packet.{length_byte, packet_error};
ghost use Rattle.packet_line.specs.State.{state_in};
ghost use Rattle.output.specs.Output.{output as Output·output, puts};
ghost use Rattle.report.specs.Limits.{input_limit};
ghost use Rattle.report.specs.Added.{Added};
ghost use Rattle.line.specs.Limits.{longest_line, text_room};
ghost use Rattle.line.specs.Held.{packet_in, Holds};
ghost use Rattle.line.specs.Text.{type_of, packet_line, refused_pieces, end_pieces, line_text, printed};

use errors::Error;
use output::Output;
use packet::PACKET_ROOM;
use packet_line::{FRESH, Finding, LINE_ROOM, OPENED, SKIPPING};
use report::INPUT_LIMIT;

// The number of the standard input.
const STDIN_FILENO: i32 = 0;

// The longest text line: three labels, 23 bytes together, three numbers of up to 20 digits and a newline.
const LONGEST_LINE: usize = 23 + 3 * 20 + 1;

// A byte decides at most one finding: a text line for each, and the last one.
const TEXT_ROOM: usize = LONGEST_LINE * (INPUT_LIMIT + 1);

fn main() {
    // One byte more than the limit is read, to tell.
    let mut input = [0u8; INPUT_LIMIT + 1];
    let n = io::read_full(STDIN_FILENO, &mut input);
    let mut out = Output::<TEXT_ROOM>::new();
    report(&input[..n], &mut out);
    out.flush();
}

// What is printed for the bytes that were read.
fn report(bytes: &[u8], out: &mut Output<TEXT_ROOM>)
    requires { (length out.old.buffer ≡ text_room) × (out.old.used ≡ 0) }
    ensures { (take out.new.used out.new.buffer ≡ printed bytes.now) × (out.new.used ≤ length out.new.buffer) }
{
    if report::is_too_long(bytes) {
        report::put_too_long(out);
        return;
    }
    line_text(bytes, out)
}

// The text of a whole line: it is handed in until nothing is found in the rest.
fn line_text(bytes: &[u8], out: &mut Output<TEXT_ROOM>)
    requires { (length bytes.now ≤ input_limit) × (length out.old.buffer ≡ text_room) × (out.old.used ≡ 0) }
    ensures { (take out.new.used out.new.buffer ≡ line_text bytes.now) × (out.new.used ≤ length out.new.buffer) }
{
    let mut line = [0u8; LINE_ROOM];
    let mut packet = [0u8; PACKET_ROOM];
    let mut offset: usize = 0;
    loop {
        let p = packet_line::push(&mut line, &bytes[offset..], &mut packet);
        offset += p.consumed;
        match p.finding {
            Finding::Nothing => return put_end(out, offset, &line),
            Finding::Packet => put_packet(out, offset, &packet),
            Finding::Refused(error) => put_refused(out, error, offset - 1),
        }
    }
}

// The text of the good packet in an area, which ends before this offset of its line.
fn put_packet(out: &mut Output<TEXT_ROOM>, end: usize, packet: &[u8])
    requires { (out.old.used + longest_line ≤ length out.old.buffer) × Holds packet.now end }
    ensures { Added out.old.buffer out.old.used out.new.buffer out.new.used (packet_line (end - (length_byte packet.now + 2)) (packet_in packet.now)) × (out.new.used ≤ out.old.used + longest_line) × (length out.new.buffer ≡ length out.old.buffer) }
{
    let size = wire::byte_at(packet, 1) as usize + 2;
    put_packet_at(out, end - size, &packet[..size])
}

// `packet at 4 bytes 6 type 1`
fn put_packet_at(out: &mut Output<TEXT_ROOM>, at: usize, packet: &[u8])
    requires { (out.old.used + longest_line ≤ length out.old.buffer) × (packet_error packet.now ≡ 0) }
    ensures { Added out.old.buffer out.old.used out.new.buffer out.new.used (packet_line at packet.now) × (out.new.used ≤ out.old.used + longest_line) × (length out.new.buffer ≡ length out.old.buffer) }
{
    out.put_number(b"packet at ", at as u64);
    out.put_number(b" bytes ", packet.len() as u64);
    out.put_line(b" type ", type_of(packet) as u64);
}

// The type of a good packet's message.
fn type_of(packet: &[u8]) -> u8
    requires { packet_error packet.now ≡ 0 }
    ensures { result ≡ type_of packet.now }
{
    packet::judge(packet).map_or(0, |kind| kind.number())
}

// `refused 3 at 7`
fn put_refused(out: &mut Output<TEXT_ROOM>, error: Error, at: usize)
    ensures { Output·output out.new.buffer out.new.used ≡ puts (Output·output out.old.buffer out.old.used) (refused_pieces (number_of error) at) }
{
    out.put_number(b"refused ", error.number() as u64);
    out.put_line(b" at ", at as u64);
}

// `end 112 fresh`, by the line state
fn put_end(out: &mut Output<TEXT_ROOM>, offset: usize, line: &[u8])
    ensures { Output·output out.new.buffer out.new.used ≡ puts (Output·output out.old.buffer out.old.used) (end_pieces offset (state_in line.now)) }
{
    out.put_number(b"end ", offset as u64);
    match wire::byte_at(line, 0) {
        FRESH => out.put(b" fresh\n"),
        SKIPPING => out.put(b" skipping\n"),
        OPENED => out.put(b" length\n"),
        _ => out.put(b" inside\n"),
    }
}
