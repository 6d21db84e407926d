// The records are played one after the other.
use crate::record;
use crate::stand::{Lines, Stand};

// Plays all records. A bad one ends the program.
fn play_all(catalogue: &[u8], records: &[u8], out: &mut Lines) {
    let mut stand = Stand::new(catalogue);
    let mut rest = records;
    let mut k: u64 = 1;
    // Where the next record begins is known when one is read, and a bad one ends the way: no `for` goes so.
    while !rest.is_empty() {
        out.flush_if_full();
        let Some((record, behind)) = record::next(rest) else {
            out.put_line(b"bad record ", k);
            out.flush();
            return;
        };
        stand.play(record, out);
        rest = behind;
        k += 1;
    }
    out.flush();
}

// Replays an input: the catalogue behind its two-byte length, then records. Where the catalogue is cut short there are none.
pub fn replay(input: &[u8]) {
    let n = numbers::u16_at(input, 0) as usize;
    if input.len() < n + 2 {
        return;
    }
    let (catalogue, records) = input[2..].split_at(n);
    play_all(catalogue, records, &mut Lines::new());
}
