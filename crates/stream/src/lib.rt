// Reading a stream of lists, one list at a time, from an offset that the caller names.
#![tactic(auto)]

ghost use Rattle.std.specs.Prelude.{◌≡◌};
ghost use Rattle.list_decode.specs.Decode.{outcome};
ghost use Rattle.stream.specs.Step.{found_of, step_of};

use errors::Error;
use list::{ROW_BYTES, Refusal, STORE_ROOM};
use list_decode::Decoded;

// The list at an offset, its rows and its store bytes, or no list at the end of the stream; offsets are counted from the
// stream's front. A refused step and the end leave both buffers as they are.
// "A run step: 20, a place past the end, the end, then the list."
pub fn next(
    bytes: &[u8],
    offset: usize,
    rows: &mut [u8],
    store: &mut [u8],
) -> Result<Option<Decoded>, Refusal>
    ensures { outcome (found_of result) rows.new store.new ≡ step_of bytes.now offset rows.old store.old }
{
    let enough = (ROW_BYTES <= rows.len()) & (STORE_ROOM <= store.len());
    if !enough {
        return Err(Refusal {
            error: Error::NoRoom,
            offset: 0,
            depth: 0,
        });
    }
    if bytes.len() < offset {
        return Err(Refusal {
            error: Error::CutShort,
            offset,
            depth: 0,
        });
    }
    if offset == bytes.len() {
        return Ok(None);
    }
    match list_decode::decode(&bytes[offset..], rows, store) {
        Ok(list) => Ok(Some(list)),
        Err(r) => Err(Refusal {
            offset: offset + r.offset,
            ..r
        }),
    }
}
