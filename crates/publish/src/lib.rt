// Writes the table as one list, straight into the buffer.
#![tactic(auto)]

mod parameter;
mod rows;

ghost use Rattle.std.specs.Prelude.{◌≡◌};
ghost use Rattle.publish.specs.Outcome.{result_of, written_of};

use errors::Error;
use list::LIST_LIMIT;
use rows::put_list;

// The table as one list at the front of the buffer: how many bytes it has, or NoRoom.
pub fn write_list(catalogue: &[u8], table: &[u8], buffer: &mut [u8]) -> Result<usize, Error>
    ensures { record { result = result_of result; buffer = buffer.new } ≡ written_of catalogue.now table.now buffer.old }
{
    if buffer.len() < LIST_LIMIT {
        return Err(Error::NoRoom);
    }
    Ok(put_list(catalogue, table, buffer))
}
