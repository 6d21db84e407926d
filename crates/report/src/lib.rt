// What the programs that print a stream of lists share: the limit of their input, and the lines that they end with.
#![tactic(auto)]

ghost use Rattle.std.specs.Prelude.{◌≡◌, ltb, length};
ghost use Rattle.list.specs.Refusal.{refusal_of};
ghost use Rattle.output.specs.Output.{output as Output·output, put, puts};
ghost use Rattle.report.specs.Limits.{input_limit};
ghost use Rattle.report.specs.Text.{end_pieces, stop_pieces, too_long};

pub mod area;

use list::Refusal;
use output::Output;

// "over 32,768 bytes it prints `too long`"
pub const INPUT_LIMIT: usize = 32768;

// Whether more bytes were read than the limit allows.
pub fn is_too_long(bytes: &[u8]) -> bool
    ensures { result ≡ ltb input_limit (length bytes.now) }
{
    INPUT_LIMIT < bytes.len()
}

// `end 112`
pub fn put_end<const N: usize>(out: &mut Output<N>, offset: usize)
    ensures { Output·output out.new.buffer out.new.used ≡ puts (Output·output out.old.buffer out.old.used) (end_pieces offset) }
{
    out.used = area::put_end(&mut out.buffer, out.used, offset);
}

// `stop 21 at 112 depth 0`
pub fn put_stop<const N: usize>(out: &mut Output<N>, refusal: Refusal)
    ensures { Output·output out.new.buffer out.new.used ≡ puts (Output·output out.old.buffer out.old.used) (stop_pieces (refusal_of refusal)) }
{
    out.used = area::put_stop(
        &mut out.buffer,
        out.used,
        refusal.error.number(),
        refusal.offset,
        refusal.depth,
    );
}

// `too long`
pub fn put_too_long<const N: usize>(out: &mut Output<N>)
    ensures { Output·output out.new.buffer out.new.used ≡ put (Output·output out.old.buffer out.old.used) too_long }
{
    out.used = area::put_too_long(&mut out.buffer, out.used);
}
