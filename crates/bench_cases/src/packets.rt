// Packets: read, and written again where they were accepted.
use super::{Line, show};
use packet::PACKET_ROOM;

// "ACK, type 7, year 6, UID 01 to 08"
pub const ACK: [u8; 16] = [0, 14, 14, 2, 10, 7, 6, 1, 2, 3, 4, 5, 6, 7, 8, 1];

// "DEVICE_DATA, map 5, 7 and true"
pub const DEVICE_DATA: [u8; 15] = [0, 13, 4, 4, 9, 5, 1, 1, 2, 7, 1, 1, 3, 1, 14];

// Whether the packet of this type and payload has these bytes. The type is a number, as packet writing takes it.
fn is_written_as(kind: u8, payload: &[u8], bytes: &[u8]) -> bool {
    let mut buffer = [0u8; PACKET_ROOM];
    match packet_encode::encode(kind, payload, &mut buffer) {
        Ok(n) => buffer.get(..n) == Some(bytes),
        Err(_) => false,
    }
}

fn case(out: &mut Line, name: &[u8], bytes: &[u8]) {
    out.put(name);
    let d = packet::decode(bytes);
    match d.answer {
        Ok(p) => {
            let kind = p.kind.number();
            out.put_number(b": type ", kind as u64);
            out.put_number(b" payload ", p.payload_len as u64);
            out.put_number(b" bytes ", p.consumed as u64);
            if let Some(payload) = d.message[2..].get(..p.payload_len) {
                if is_written_as(kind, payload, bytes) {
                    out.put(b", written again the same");
                }
            }
        }
        Err(error) => out.put_number(b": refused ", error.number() as u64),
    }
    show::end_line(out);
}

pub fn run(out: &mut Line) {
    case(out, b"PING", &[0, 4, 2, 1, 2, 1]);
    case(out, b"PING, last byte 02", &[0, 4, 2, 1, 2, 2]);
    case(out, b"PING, L 03", &[0, 3, 2, 1, 2, 1]);
    case(out, b"PING, first four bytes", &[0, 4, 2, 1]);
    case(out, b"00 04 02 00", &[0, 4, 2, 0]);
    case(out, b"ACK", &ACK);
    case(out, b"DEVICE_DATA", &DEVICE_DATA);
}
