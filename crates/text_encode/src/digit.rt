// Digits, from the last to the first.
ghost use Rattle.std.specs.Prelude.{◌+◌, ◌≤◌, ◌<◌, ◌≡◌, length};
ghost use Rattle.digits.specs.Decimal.{decimal};
ghost use Rattle.digits.specs.Fixed.{glyph, fixed};
ghost use Rattle.text_encode.specs.Writer.{HasRoom, Wrote};

use crate::writer::Writer;

fn digit(d: u32) -> u8
    requires { d < 16 }
    ensures { result ≡ glyph d }
{
    if d < 10 {
        return b'0' + d as u8;
    }
    b'a' + (d - 10) as u8
}

// How many decimal digits a number has.
fn digit_count(n: u32) -> usize
    ensures { (result ≡ length (decimal n)) × (decimal n ≡ fixed 10 result n) × (result ≤ 10) }
{
    if n < 100 {
        if n < 10 {
            return 1;
        }
        return 2;
    }
    if n < 10_000 {
        if n < 1_000 {
            return 3;
        }
        return 4;
    }
    if n < 1_000_000 {
        if n < 100_000 {
            return 5;
        }
        return 6;
    }
    large_count(n)
}

fn large_count(n: u32) -> usize
    requires { 1000000 ≤ n }
    ensures { (result ≡ length (decimal n)) × (decimal n ≡ fixed 10 result n) × (result ≤ 10) }
{
    if n < 100_000_000 {
        if n < 10_000_000 {
            return 7;
        }
        return 8;
    }
    if n < 1_000_000_000 {
        return 9;
    }
    10
}

impl<'a> Writer<'a> {
    // `width` hexadecimal digits.
    pub fn put_hex(&mut self, width: usize, n: u32)
        requires { HasRoom self.old (fixed 16 width n) }
        ensures { Wrote self.old self.new (fixed 16 width n) }
    {
        let at = self.end;
        self.end += width;
        let mut left = n;
        for i in (0..width).rev() {
            self.text[at + i] = digit(left % 16);
            left = left / 16;
        }
    }

    // Two digits at a time: each division needs the result of the one before it, and so there are half as many. So the loop is no `for`:
    // it goes by two, and says whether a digit is left.
    fn put_digits(&mut self, count: usize, n: u32)
        requires { HasRoom self.old (fixed 10 count n) }
        ensures { Wrote self.old self.new (fixed 10 count n) }
    {
        let at = self.end;
        self.end += count;
        let mut left = n;
        let mut i = count;
        while 1 < i {
            let pair = left % 100;
            self.text[at + (i - 1)] = digit(pair % 10);
            self.text[at + (i - 2)] = digit(pair / 10);
            left = left / 100;
            i -= 2;
        }
        if i == 1 {
            self.text[at] = digit(left % 10);
        }
    }

    // A number in decimal.
    pub fn put_decimal(&mut self, n: u32)
        requires { HasRoom self.old (decimal n) }
        ensures { Wrote self.old self.new (decimal n) }
    {
        let count = digit_count(n);
        self.put_digits(count, n);
    }
}
