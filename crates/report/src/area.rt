// The lines at the end, put into an area of any length behind the bytes that are in use; each answers the end of its line.
ghost use Rattle.std.specs.Prelude.{◌≡◌};
ghost use Rattle.list.specs.Refusal.{refusal_at};
ghost use Rattle.output.specs.Output.{output as Output·output, put, puts};
ghost use Rattle.report.specs.Text.{end_pieces, stop_pieces, too_long};

// `end 112`
pub fn put_end(text: &mut [u8], used: usize, offset: usize) -> usize
    ensures { Output·output text.new result ≡ puts (Output·output text.old used) (end_pieces offset) }
{
    output::put_line(text, used, b"end ", offset as u64)
}

// `stop 21 at 112 depth 0`, for any number.
pub fn put_stop(text: &mut [u8], used: usize, number: u8, offset: usize, depth: u8) -> usize
    ensures { Output·output text.new result ≡ puts (Output·output text.old used) (stop_pieces (refusal_at number offset depth)) }
{
    let behind_number = output::put_number(&mut *text, used, b"stop ", number as u64);
    let behind_offset = output::put_number(&mut *text, behind_number, b" at ", offset as u64);
    output::put_line(text, behind_offset, b" depth ", depth as u64)
}

// `too long`
pub fn put_too_long(text: &mut [u8], used: usize) -> usize
    ensures { Output·output text.new result ≡ put (Output·output text.old used) too_long }
{
    output::put(text, used, b"too long\n")
}
