// The hub: what its users call, in one place. A packet is received with its socket, a device detaches, one parameter is read, the
// table is published. The table is lent as bytes; IllegalCatalogue, Unlawful and NoSocket are judged here, and nothing
// changes where one of them is given. Catalogue, table and socket stay single parameters: they are those of the calls from C.
#![tactic(auto)]

mod inbound;

ghost use Rattle.std.specs.Prelude.{◌≡◌};
ghost use Rattle.table.specs.Change.{verdict_of};
ghost use Rattle.parameters.specs.Read.{finding_of};
ghost use Rattle.publish.specs.Outcome.{result_of};
ghost use Rattle.hub.specs.Calls.{detached, read_of, publish_of};

pub use errors::Error;
pub use inbound::receive;
use lawful::admit;
pub use slot::SLOT_BYTES;
use table::{SLOTS, SOCKETS};
pub use value::Value;

// The bytes of a table.
pub const TABLE_BYTES: usize = SLOT_BYTES * SLOTS;

// The device on a socket leaves: IllegalCatalogue, Unlawful, NoSocket, NoDevice, or its slot is empty.
pub fn detach(catalogue: &[u8], table: &mut [u8], socket: u64) -> Result<(), Error>
    ensures { record { verdict = verdict_of result; table = table.new } ≡ detached catalogue.now table.old socket }
{
    // By cases and not by `?`, so that a must-fail edit can change what is handed on.
    match admit(catalogue, &*table, SLOTS, SOCKETS, socket) {
        Ok(()) => attach::leave(table, SLOTS, socket as u8),
        Err(error) => Err(error),
    }
}

// One parameter of the device on a socket: IllegalCatalogue, Unlawful, NoSocket, NoDevice, or its value or absent.
pub fn read_parameter(
    catalogue: &[u8],
    table: &[u8],
    socket: u64,
    index: u64,
) -> Result<Option<Value>, Error>
    ensures { finding_of result ≡ read_of catalogue.now table.now socket index }
{
    // By cases, as `detach`.
    match admit(catalogue, table, SLOTS, SOCKETS, socket) {
        Ok(()) => parameters::read(catalogue, table, SLOTS, socket as u8, index),
        Err(refused) => Err(refused),
    }
}

// The table as one list at the front of the buffer: how many bytes it has, or IllegalCatalogue, Unlawful or NoRoom.
pub fn publish(catalogue: &[u8], table: &[u8], buffer: &mut [u8]) -> Result<usize, Error>
    ensures { record { result = result_of result; buffer = buffer.new } ≡ publish_of catalogue.now table.now buffer.old }
{
    if !catalogue::is_legal(catalogue) {
        return Err(Error::IllegalCatalogue);
    }
    if !lawful::is_lawful(catalogue, table, SLOTS, SOCKETS) {
        return Err(Error::Unlawful);
    }
    publish::write_list(catalogue, table, buffer)
}
