// The message of a packet: type, payload length, payload, checksum.
ghost use Rattle.std.specs.Prelude.{◌-◌, ◌≤◌, ◌<◌, ◌≡◌, false, length, get_or, IfOk};
ghost use Rattle.wire.specs.Zero.{has_zero};
ghost use Rattle.packet.specs.Cobs.{decoded_part};
ghost use Rattle.packet.specs.Refusal.{error_of};
ghost use Rattle.packet.specs.TypeTable.{type_number, allowed, IsType};
ghost use Rattle.packet.specs.Message.{xor_from, message_error};

use super::cobs::{first_byte, second_byte};
use errors::Error;

// The types of messages.
#[derive(Clone, Copy, Debug, PartialEq, Eq)]
pub enum MessageType {
    Ping,
    Ack,
    DeviceWrite,
    DeviceData,
    Log,
}

impl MessageType {
    pub fn number(self) -> u8
        ensures { result ≡ type_number self }
    {
        match self {
            MessageType::Ping => 1,
            MessageType::Ack => 2,
            MessageType::DeviceWrite => 3,
            MessageType::DeviceData => 4,
            MessageType::Log => 5,
        }
    }

    // Does the type allow a payload of n bytes?
    pub fn allows(self, n: usize) -> bool
        ensures { result ≡ allowed (type_number self) n }
    {
        match self {
            MessageType::Ping => n == 0,
            MessageType::Ack => n == 10,
            MessageType::DeviceWrite => 4 <= n && n <= 132,
            MessageType::DeviceData => 4 <= n && n <= 132,
            MessageType::Log => n <= 251,
        }
    }
}

impl TryFrom<u8> for MessageType {
    type Error = Error;

    ghost try_from_gives = { IsType };

    fn try_from(number: u8) -> Result<MessageType, Error> {
        match number {
            1 => Ok(MessageType::Ping),
            2 => Ok(MessageType::Ack),
            3 => Ok(MessageType::DeviceWrite),
            4 => Ok(MessageType::DeviceData),
            5 => Ok(MessageType::Log),
            _ => Err(Error::MessageType),
        }
    }
}

// Is the number that of a type, and does this allow a payload of n bytes? Callers may ask for any number, so it takes no MessageType.
pub fn is_allowed(kind: u8, n: usize) -> bool
    ensures { result ≡ allowed kind n }
{
    match MessageType::try_from(kind) {
        Ok(known) => known.allows(n),
        Err(_) => false,
    }
}

// The type of a part's message with that exclusive or of all its bytes, or the first error.
pub fn message_type(part: &[u8], sum: usize) -> Result<MessageType, Error>
    requires { (4 ≤ length part.now) × (has_zero part.now ≡ false) × (sum ≡ xor_from 0 (decoded_part part.now)) }
    ensures error { error_of result ≡ message_error (decoded_part part.now) }
    ensures kind { IfOk result (λ kind. type_number kind ≡ get_or (decoded_part part.now) 0 0) }
{
    let n = part.len() - 4;
    if second_byte(part) as usize != n {
        return Err(Error::PayloadLength);
    }
    if sum != 0 {
        return Err(Error::Checksum);
    }
    let kind = MessageType::try_from(first_byte(part))?;
    if !kind.allows(n) {
        return Err(Error::MessageType);
    }
    Ok(kind)
}
