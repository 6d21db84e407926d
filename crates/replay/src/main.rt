// Replays captured packets, lines as they arrived and other calls against one hub: records from standard input, a line of output for each,
// and for a line one for each finding.
#![tactic(auto)]

mod play;
mod record;
mod stand;
mod value_line;

// The numbers of the standard streams.
const STDIN_FILENO: i32 = 0;

const STDOUT_FILENO: i32 = 1;

// "over 65,536 bytes it prints `too long`": one byte more is read, to tell.
const INPUT_LIMIT: usize = 65536;

fn main() {
    let mut input = [0u8; INPUT_LIMIT + 1];
    let n = io::read_full(STDIN_FILENO, &mut input);
    if INPUT_LIMIT < n {
        io::write_all(STDOUT_FILENO, b"too long\n");
        return;
    }
    play::replay(&input[..n]);
}
