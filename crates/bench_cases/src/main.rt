// Runs the bench cases of 01 and prints what each gives; the file stdout has what 01 says.
#![tactic(auto)]

mod device;
mod lists;
mod packets;
mod show;

use output::{LIST_LINE_ROOM, Output};

// A line of output, collected before it is written.
type Line = Output<LIST_LINE_ROOM>;

fn main() {
    let mut out = Line::new();
    packets::run(&mut out);
    device::run(&mut out);
    lists::run(&mut out);
}
