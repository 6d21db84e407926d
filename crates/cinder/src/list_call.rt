// List reading for C: numbers and byte areas only.
ghost use Rattle.std.specs.Prelude.{◌≡◌};
ghost use Rattle.list.specs.Refusal.{refusal_of};
ghost use Rattle.list_decode.specs.Decode.{outcome};
ghost use Rattle.cinder.specs.ListCall.{list_read, list_refused, list_call};

use list::Refusal;
use list_decode::Decoded;

// The number of the error, 0 for none, its offset and how many lists are open at the fault; the bytes consumed, the rows filled and the
// store bytes in use, 0 on an error.
#[repr(C)]
#[derive(Drop)]
pub struct ListResult {
    pub error: u64,
    pub consumed: u64,
    pub rows: u64,
    pub offset: u64,
    pub stored: u64,
    pub depth: u64,
}

impl From<Decoded> for ListResult {
    ghost from_gives = { λ list r. r ≡ list_read list.consumed list.rows list.stored };

    fn from(list: Decoded) -> ListResult {
        ListResult {
            error: 0,
            consumed: list.consumed as u64,
            rows: list.rows as u64,
            offset: 0,
            stored: list.stored as u64,
            depth: 0,
        }
    }
}

// The one place where a refusal becomes numbers for C.
impl From<Refusal> for ListResult {
    ghost from_gives = { λ refusal r. r ≡ list_refused (refusal_of refusal) };

    fn from(refusal: Refusal) -> ListResult {
        ListResult {
            error: refusal.error.number() as u64,
            consumed: 0,
            rows: 0,
            offset: refusal.offset as u64,
            stored: 0,
            depth: refusal.depth as u64,
        }
    }
}

// Reads the list at the front of the bytes into rows of 12 bytes each and a byte store.
#[unsafe(no_mangle)]
pub extern "C" fn cinder_list_decode(bytes: &[u8], rows: &mut [u8], store: &mut [u8]) -> ListResult
    ensures { outcome result rows.new store.new ≡ list_call bytes.now rows.old store.old }
{
    match list_decode::decode(bytes, rows, store) {
        Ok(list) => ListResult::from(list),
        Err(refusal) => ListResult::from(refusal),
    }
}
