// Catalogue C, the device that attaches on socket 3, and the list that is published then.
use super::{Line, lists, packets, show};
use catalogue::Kind;
use hub::TABLE_BYTES;
use list::LIST_LIMIT;

const CATALOGUE_C: [u8; 8] = [1, 7, 3, 3, 0, 4, 9, 6];

fn parameter(out: &mut Line, index: usize) {
    let Some(p) = catalogue::find_parameter(&CATALOGUE_C, 7, index) else {
        out.put(b", none");
        return;
    };
    match p.kind {
        Kind::Int => out.put(b", INT"),
        Kind::Float => out.put(b", FLOAT"),
        Kind::Bool => out.put(b", BOOL"),
        Kind::Unknown => out.put(b", unknown"),
    }
    if p.readable {
        out.put(b" readable");
    }
    if p.writable {
        out.put(b" writable");
    }
}

// Whether the catalogue is legal, and the parameters of type 7.
fn describe(out: &mut Line) {
    out.put(b"Catalogue C:");
    if catalogue::is_legal(&CATALOGUE_C) {
        out.put(b" legal");
    }
    let count = catalogue::find_device(&CATALOGUE_C, 7).map_or(0, |d| d.parameters);
    out.put_number(b", type 7 parameters ", count as u64);
    for index in 0..3 {
        parameter(out, index);
    }
    show::end_line(out);
}

// A packet on socket 3.
fn receive(out: &mut Line, name: &[u8], table: &mut [u8], bytes: &[u8]) {
    out.put(name);
    match hub::receive(&CATALOGUE_C, table, 3, bytes) {
        Ok(n) => out.put_number(b" on socket 3: accepted, bytes ", n as u64),
        Err(error) => out.put_number(b" on socket 3: refused ", error.number() as u64),
    }
    show::end_line(out);
}

// The bytes of the published list, and its rows, with the UID in the store.
fn publish(out: &mut Line, table: &[u8]) {
    let mut buffer = [0u8; LIST_LIMIT];
    match hub::publish(&CATALOGUE_C, table, &mut buffer) {
        Ok(n) => {
            let Some(bytes) = buffer.get(..n) else {
                return;
            };
            show::hex(out, b"Published: ", bytes);
            show::end_line(out);
            lists::case(out, b"Published, read", bytes);
        }
        Err(error) => out.put_number(b"Published: refused ", error.number() as u64),
    }
}

pub fn run(out: &mut Line) {
    describe(out);
    let mut table = [0u8; TABLE_BYTES];
    receive(out, b"ACK", &mut table, &packets::ACK);
    receive(out, b"DEVICE_DATA", &mut table, &packets::DEVICE_DATA);
    publish(out, &table);
}
