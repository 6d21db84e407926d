// The hub that records are played against, with the lines of its sockets.
use crate::record::Record;
use crate::value_line;
use errors::Error;
use hub::TABLE_BYTES;
use list::LIST_LIMIT;
use output::{LIST_LINE_ROOM, Output};
use packet::PACKET_ROOM;
use packet_line::{Finding, LINE_ROOM};
use table::SOCKETS;

// Output is collected, and written when less room is left than a line may take.
pub type Lines = Output<OUTPUT_ROOM>;

const OUTPUT_ROOM: usize = 4 * LIST_LINE_ROOM;

#[derive(Drop)]
pub struct Stand<'c> {
    catalogue: &'c [u8],
    table: [u8; TABLE_BYTES],
    // A line state for each socket, fresh at first.
    lines: [[u8; LINE_ROOM]; SOCKETS as usize],
}

pub fn put_refused(out: &mut Lines, label: &[u8], error: Error) {
    out.put_line(label, error.number() as u64);
}

fn put_receipt(out: &mut Lines, receipt: Result<usize, Error>) {
    match receipt {
        Ok(n) => out.put_line(b"took ", n as u64),
        Err(error) => put_refused(out, b"refused ", error),
    }
}

// The bytes are handed in, and their rest again, until a call takes none. A good packet is handed to the hub; a refusal is told;
// nothing is said where more is wanted. There may be a finding for each byte, so that room is made for every line of output.
fn feed_line(
    catalogue: &[u8],
    table: &mut [u8],
    line: &mut [u8],
    socket: u8,
    bytes: &[u8],
    out: &mut Lines,
) {
    let mut packet = [0u8; PACKET_ROOM];
    let mut rest = bytes;
    loop {
        let p = packet_line::push(&mut *line, rest, &mut packet);
        if p.consumed == 0 {
            return;
        }
        rest = &rest[p.consumed..];
        out.flush_if_full();
        match p.finding {
            Finding::Nothing => {}
            Finding::Packet => put_receipt(
                out,
                hub::receive(catalogue, &mut *table, socket as u64, &packet),
            ),
            Finding::Refused(error) => put_refused(out, b"line refused ", error),
        }
    }
}

impl<'c> Stand<'c> {
    pub fn new(catalogue: &'c [u8]) -> Stand<'c> {
        Stand {
            catalogue,
            table: [0; TABLE_BYTES],
            lines: [[0; LINE_ROOM]; SOCKETS as usize],
        }
    }

    fn detach(&mut self, socket: u8, out: &mut Lines) {
        match hub::detach(self.catalogue, &mut self.table, socket as u64) {
            Ok(()) => out.put(b"left\n"),
            Err(error) => put_refused(out, b"refused ", error),
        }
    }

    fn publish(&self, out: &mut Lines) {
        let mut list = [0u8; LIST_LIMIT];
        match hub::publish(self.catalogue, &self.table, &mut list) {
            Ok(n) => {
                out.put_number(b"posted ", n as u64);
                out.put(b" ");
                out.put_front(&list, n);
                out.put(b"\n");
            }
            Err(error) => put_refused(out, b"refused ", error),
        }
    }

    fn show(&self, out: &mut Lines) {
        out.put(b"table ");
        out.put_bytes(&self.table);
        out.put(b"\n");
    }

    // Bytes as they arrive at a socket. A socket that there is not takes none, whatever the catalogue and the table are.
    fn feed(&mut self, socket: u8, bytes: &[u8], out: &mut Lines) {
        match self.lines.get_mut(socket as usize) {
            Some(line) => feed_line(self.catalogue, &mut self.table, line, socket, bytes, out),
            None => put_refused(out, b"refused ", Error::NoSocket),
        }
    }

    pub fn play(&mut self, record: Record<'_>, out: &mut Lines) {
        match record {
            Record::Receive { socket, packet } => put_receipt(
                out,
                hub::receive(self.catalogue, &mut self.table, socket as u64, packet),
            ),
            Record::Detach { socket } => self.detach(socket, out),
            Record::Publish => self.publish(out),
            Record::Read { socket, index } => value_line::put_reading(
                out,
                hub::read_parameter(self.catalogue, &self.table, socket as u64, index as u64),
            ),
            Record::Load { table } => {
                wire::copy_at(&mut self.table, 0, table);
                out.put(b"loaded\n");
            }
            Record::Show => self.show(out),
            Record::Line { socket, bytes } => self.feed(socket, bytes, out),
        }
    }
}
