// Packet reading: the packet at the front of the bytes, later bytes ignored.
ghost use Rattle.std.specs.Prelude.{◌≡◌, get_or, IfOk};
ghost use Rattle.packet.specs.Cobs.{decoded_part};
ghost use Rattle.packet.specs.TypeTable.{type_number};
ghost use Rattle.packet.specs.Message.{xor_from};
ghost use Rattle.packet.specs.Refusal.{error_of};
ghost use Rattle.packet.specs.Packet.{part_present, front_error, packet_error, judgement_of, decoded, filled};

use super::cobs::{decode_part, scan, walk};
use super::message::{MessageType, message_type};
use super::{Decoded, PACKET_ROOM, PART_LEAST, Packet};
use errors::Error;

// The exclusive or of the encoded bytes, or the first error of what stands before the blocks; one pass over the part finds
// a 00 and the exclusive or.
fn front_sum(bytes: &[u8]) -> Result<u8, Error>
    ensures error { error_of result ≡ front_error bytes.now }
    ensures sum { IfOk result (λ sum. sum ≡ xor_from 0 (part_present bytes.now)) }
{
    if bytes.len() == 0 {
        return Err(Error::Incomplete);
    }
    if bytes[0] != 0 {
        return Err(Error::NoStart);
    }
    if bytes.len() == 1 {
        return Err(Error::Incomplete);
    }
    let n = bytes[1] as usize;
    if n < PART_LEAST {
        return Err(Error::ShortPart);
    }
    if bytes.len() < n + 2 {
        if wire::has_zero(&bytes[2..]) {
            return Err(Error::StrayZero);
        }
        return Err(Error::Incomplete);
    }
    let s = scan(&bytes[2..n + 2]);
    if s.zero {
        return Err(Error::StrayZero);
    }
    Ok(s.sum)
}

// Judges the packet at the front: the type of its message, or the first error. A byte in place of the Result would take 3 instructions
// fewer for a good packet, a Result that holds the whole Packet 15 to 18 more.
pub fn judge(bytes: &[u8]) -> Result<MessageType, Error>
    ensures error { error_of result ≡ packet_error bytes.now }
    ensures kind { IfOk result (λ kind. type_number kind ≡ get_or (decoded_part (part_present bytes.now)) 0 0) }
{
    let sum = front_sum(bytes)?;
    let n = bytes[1] as usize;
    let part = &bytes[2..n + 2];
    let w = walk(part, sum);
    if w.lack != 0 {
        return Err(Error::BlockPastEnd);
    }
    message_type(part, w.sum)
}

// Judges the packet at the front and answers its type, payload length and size, or the first error.
// The message goes to the front of the buffer; nothing is written before the last error is ruled out.
pub fn decode_into(bytes: &[u8], buffer: &mut [u8]) -> Result<Packet, Error>
    ensures { record { judgement = judgement_of result; buffer = buffer.new } ≡ filled bytes.now buffer.old }
{
    if buffer.len() < PACKET_ROOM {
        return Err(Error::NoRoom);
    }
    let kind = judge(bytes)?;
    let n = bytes[1] as usize;
    decode_part(&bytes[2..n + 2], &mut *buffer);
    Ok(Packet {
        kind,
        payload_len: n - 4,
        consumed: n + 2,
    })
}

// The same beside a working copy, which holds the message of an accepted packet, and zeros alone beside an error.
pub fn decode(bytes: &[u8]) -> Decoded
    ensures { record { judgement = judgement_of result.answer; message = result.message } ≡ decoded bytes.now }
{
    let mut message = [0u8; PACKET_ROOM];
    let answer = decode_into(bytes, &mut message);
    Decoded { answer, message }
}
