// The text of a list: its definitions, its laws, and the room that a text may take.
#![tactic(auto)]

use list::LIST_LIMIT;

// "the text never passes 16,384 characters": four for each byte that a list may have.
pub const TEXT_ROOM: usize = 4 * LIST_LIMIT;
