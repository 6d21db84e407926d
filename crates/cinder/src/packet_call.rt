// Packet reading for C: numbers and byte areas only.
ghost use Rattle.std.specs.Prelude.{◌≡◌};
ghost use Rattle.cinder.specs.PacketCall.{reading_result, packet_call};

use errors::Error;

// The number of the error, 0 for none, and the bytes consumed, 0 on an error.
#[repr(C)]
#[derive(Drop)]
pub struct PacketResult {
    pub error: u64,
    pub consumed: u64,
}

impl From<Result<usize, Error>> for PacketResult {
    ghost from_gives = { λ answer r. r ≡ reading_result answer };

    fn from(answer: Result<usize, Error>) -> PacketResult {
        match answer {
            Ok(consumed) => PacketResult {
                error: 0,
                consumed: consumed as u64,
            },
            Err(error) => PacketResult {
                error: error.number() as u64,
                consumed: 0,
            },
        }
    }
}

// Reads the packet at the front of the bytes; its message goes to the front of the buffer.
#[unsafe(no_mangle)]
pub extern "C" fn cinder_packet_decode(bytes: &[u8], message: &mut [u8]) -> PacketResult
    ensures { record { error = result.error; consumed = result.consumed; message = message.new } ≡ packet_call bytes.now message.old }
{
    PacketResult::from(packet::decode_into(bytes, message).map(|packet| packet.consumed))
}
