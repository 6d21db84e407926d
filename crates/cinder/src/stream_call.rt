// Reading a stream of lists for C: numbers and byte areas only.
ghost use Rattle.std.specs.Prelude.{◌≡◌};
ghost use Rattle.list_decode.specs.Decode.{outcome};
ghost use Rattle.cinder.specs.StreamCall.{stream_call};

use crate::list_call::ListResult;
use list_decode::Decoded;

// No list: at the end of a stream.
const NOTHING: Decoded = Decoded {
    consumed: 0,
    rows: 0,
    stored: 0,
};

// Reads the list at an offset into rows of 12 bytes each and a byte store; the stream's end consumes nothing, without an error.
#[unsafe(no_mangle)]
pub extern "C" fn cinder_stream_next(
    bytes: &[u8],
    offset: u64,
    rows: &mut [u8],
    store: &mut [u8],
) -> ListResult
    ensures { outcome result rows.new store.new ≡ stream_call bytes.now offset rows.old store.old }
{
    match stream::next(bytes, offset as usize, rows, store) {
        Ok(Some(list)) => ListResult::from(list),
        Ok(None) => ListResult::from(NOTHING),
        Err(refusal) => ListResult::from(refusal),
    }
}
