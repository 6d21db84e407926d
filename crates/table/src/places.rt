// Slots that are searched for. A search reads the heads of rows alone.
ghost use Rattle.std.specs.Prelude.{◌≡◌, not};
ghost use Rattle.slot.specs.Rows.{slot_at};
ghost use Rattle.table.specs.Places.{holds, place_of, free_of};

fn is_on(t: &[u8], i: usize, socket: u8) -> bool
    ensures { result ≡ holds (slot_at t.now i) socket }
{
    let h = slot::head_at(t, i);
    h.taken && h.socket == socket
}

fn is_free(t: &[u8], i: usize) -> bool
    ensures { result ≡ not (slot_at t.now i).taken }
{
    !slot::head_at(t, i).taken
}

// The slot of the device on a socket.
pub fn find_slot(t: &[u8], slots: usize, socket: u8) -> Option<usize>
    ensures { result ≡ place_of slots t.now socket }
{
    (0..slots).find(|i| is_on(t, *i, socket))
}

// The lowest empty slot.
pub fn free_slot(t: &[u8], slots: usize) -> Option<usize>
    ensures { result ≡ free_of slots t.now }
{
    // `find` in place of the loop takes it 9 to 11 instructions more.
    for i in 0..slots {
        if is_free(t, i) {
            return Some(i);
        }
    }
    None
}
