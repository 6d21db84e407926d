// The hub's calls for C: numbers and byte areas only. The table is one of these areas.
ghost use Rattle.std.specs.Prelude.{◌≡◌};
ghost use Rattle.value.specs.Meaning.{meaning_of};
ghost use Rattle.parameters.specs.Read.{finding_of};
ghost use Rattle.cinder.specs.HubCall.{numbers_of, value_numbers, receive_call, detach_call, publish_call, read_call};

use crate::packet_call::PacketResult;
use crate::write_call::WriteResult;
use hub::{Error, Value};

// The number of the error, 0 for none, what is held (0 nothing, 1 a whole number, 2 a float, 3 a flag) and its bits; 0 on an error.
#[repr(C)]
#[derive(Drop)]
pub struct ValueResult {
    pub error: u64,
    pub kind: u64,
    pub bits: u64,
}

// What is held of a parameter: a kind, and bits.
fn held(kind: u64, bits: u32) -> ValueResult
    ensures { result ≡ record { error = 0; kind = kind; bits = bits } }
{
    ValueResult {
        error: 0,
        kind,
        bits: bits as u64,
    }
}

impl From<Value> for ValueResult {
    ghost from_gives = { λ v r. r ≡ numbers_of (meaning_of v) };

    fn from(v: Value) -> ValueResult {
        match v {
            Value::Int(i) => held(1, value::int_bits(i)),
            Value::Float(x) => held(2, value::float_bits(x)),
            Value::Bool(flag) => held(3, value::flag_bits(flag)),
            Value::Nan(bits) => held(2, bits),
        }
    }
}

impl From<Result<Option<Value>, Error>> for ValueResult {
    ghost from_gives = { λ answer r. r ≡ value_numbers (finding_of answer) };

    fn from(answer: Result<Option<Value>, Error>) -> ValueResult {
        match answer {
            Ok(Some(v)) => ValueResult::from(v),
            Ok(None) => held(0, 0),
            Err(error) => ValueResult {
                error: error.number() as u64,
                kind: 0,
                bits: 0,
            },
        }
    }
}

// Receives the packet at the front of the bytes from a socket.
#[unsafe(no_mangle)]
pub extern "C" fn cinder_hub_receive(
    catalogue: &[u8],
    table: &mut [u8],
    socket: u64,
    bytes: &[u8],
) -> PacketResult
    ensures { record { answer = result; table = table.new } ≡ receive_call catalogue.now table.old socket bytes.now }
{
    // By cases, so that a must-fail edit can change what this call alone hands on.
    match hub::receive(catalogue, table, socket, bytes) {
        Ok(consumed) => PacketResult::from(Ok(consumed)),
        Err(error) => PacketResult {
            error: error.number() as u64,
            consumed: 0,
        },
    }
}

// The device on a socket leaves. Answers the number of the error, 0 for none.
#[unsafe(no_mangle)]
pub extern "C" fn cinder_hub_detach(catalogue: &[u8], table: &mut [u8], socket: u64) -> u64
    ensures { record { answer = result; table = table.new } ≡ detach_call catalogue.now table.old socket }
{
    match hub::detach(catalogue, table, socket) {
        Ok(()) => 0,
        Err(error) => error.number() as u64,
    }
}

// Writes the table as one list to the front of the area.
#[unsafe(no_mangle)]
pub extern "C" fn cinder_hub_publish(catalogue: &[u8], table: &[u8], list: &mut [u8]) -> WriteResult
    ensures { record { answer = result; area = list.new } ≡ publish_call catalogue.now table.now list.old }
{
    // By cases, so that a must-fail edit can change what this call alone hands on.
    match hub::publish(catalogue, table, list) {
        Ok(count) => WriteResult::from(Ok(count)),
        Err(error) => WriteResult::from(Err(error)),
    }
}

// One parameter of the device on a socket.
#[unsafe(no_mangle)]
pub extern "C" fn cinder_hub_read(
    catalogue: &[u8],
    table: &[u8],
    socket: u64,
    index: u64,
) -> ValueResult
    ensures { result ≡ read_call catalogue.now table.now socket index }
{
    ValueResult::from(hub::read_parameter(catalogue, table, socket, index))
}
