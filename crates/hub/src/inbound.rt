// A packet is received with the socket that it came from.
ghost use Rattle.std.specs.Prelude.{◌≡◌, true};
ghost use Rattle.packet.specs.Packet.{decoded};
ghost use Rattle.table.specs.Places.{slot_count, socket_count};
ghost use Rattle.lawful.specs.Lawful.{lawful};
ghost use Rattle.hub.specs.Receive.{outcome_of, by_reading, received_of};

use errors::Error;
use packet::MessageType;
use table::{SLOTS, SOCKETS};

// The packet at the front of the bytes, where IllegalCatalogue, Unlawful and NoSocket are ruled out: the packet's error,
// NotForHub, then what its type asks. PING and DEVICE_WRITE are for devices, not for the hub.
fn take_in(catalogue: &[u8], table: &mut [u8], socket: u8, bytes: &[u8]) -> Result<usize, Error>
    requires { lawful slot_count socket_count catalogue.now table.old ≡ true }
    ensures { record { outcome = outcome_of result; table = table.new } ≡ by_reading catalogue.now table.old socket (decoded bytes.now) }
{
    // The working copy is lent: one that the reader returns is copied on the way.
    let mut message = [0u8; packet::PACKET_ROOM];
    let a = packet::decode_into(bytes, &mut message);
    let Ok(packet) = a else {
        let Err(error) = a else {
            // Not reached: an answer that is no packet is a refusal. DECISIONS, "Forms that 01 names", keeps the `let .. else`.
            return Err(Error::NotForHub);
        };
        return Err(error);
    };
    let payload = &message[2..2 + packet.payload_len];
    match packet.kind {
        MessageType::Ack => {
            attach::assign(catalogue, table, SLOTS, socket, payload)?;
            Ok(packet.consumed)
        }
        MessageType::DeviceData => {
            parameters::apply_data(catalogue, table, SLOTS, socket, payload)?;
            Ok(packet.consumed)
        }
        MessageType::Log => Ok(packet.consumed),
        MessageType::Ping | MessageType::DeviceWrite => Err(Error::NotForHub),
    }
}

// Receives the packet at the front of the bytes from a socket: IllegalCatalogue, Unlawful, NoSocket, the packet's error,
// NotForHub, then what its type asks.
pub fn receive(
    catalogue: &[u8],
    table: &mut [u8],
    socket: u64,
    bytes: &[u8],
) -> Result<usize, Error>
    ensures { record { outcome = outcome_of result; table = table.new } ≡ received_of catalogue.now table.old socket bytes.now }
{
    lawful::admit(catalogue, &*table, SLOTS, SOCKETS, socket)?;
    take_in(catalogue, table, socket as u8, bytes)
}
