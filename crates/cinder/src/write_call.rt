// Writing packets and lists for C: numbers and byte areas only.
ghost use Rattle.std.specs.Prelude.{◌≡◌, cond, ltb};
ghost use Rattle.cinder.specs.WriteCall.{writing_result, packet_write_call, list_write_call};

use errors::Error;

// The number of the error, 0 for none, and the bytes written, 0 on an error.
#[repr(C)]
#[derive(Drop)]
pub struct WriteResult {
    pub error: u64,
    pub written: u64,
}

impl From<Result<usize, Error>> for WriteResult {
    ghost from_gives = { λ answer r. r ≡ writing_result answer };

    fn from(answer: Result<usize, Error>) -> WriteResult {
        match answer {
            Ok(count) => WriteResult {
                error: 0,
                written: count as u64,
            },
            Err(error) => WriteResult {
                error: error.number() as u64,
                written: 0,
            },
        }
    }
}

// A message type as a byte: 0, which is no type, for a number above a byte.
// Not by try_from and unwrap_or: what packet writing calls is named in the compiler's listing without types to choose
// (tests/no_arrays.sh).
fn type_byte(number: u64) -> u8
    ensures { result ≡ cond (ltb number 256) number 0 }
{
    if number < 256 {
        return number as u8;
    }
    0
}

// Writes the packet of a message type and a payload to the front of the area.
#[unsafe(no_mangle)]
pub extern "C" fn cinder_packet_encode(
    number: u64,
    payload: &[u8],
    packet: &mut [u8],
) -> WriteResult
    ensures { record { answer = result; area = packet.new } ≡ packet_write_call number payload.now packet.old }
{
    WriteResult::from(packet_encode::encode(type_byte(number), payload, packet))
}

// Writes the list of rows, 12 bytes each, and a byte store to the front of the area.
#[unsafe(no_mangle)]
pub extern "C" fn cinder_list_encode(rows: &[u8], store: &[u8], list: &mut [u8]) -> WriteResult
    ensures { record { answer = result; area = list.new } ≡ list_write_call rows.now store.now list.old }
{
    WriteResult::from(list_encode::encode(rows, store, list))
}
