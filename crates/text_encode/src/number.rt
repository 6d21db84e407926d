// Ints and floats.
ghost use Rattle.std.specs.Prelude.{◌<◌, ◌^◌, ◌≡◌};
ghost use Rattle.text.specs.Text.{int_text, exponent_of, sign_text, scale_text, scale_of, lead_of, frame_text, float_text};
ghost use Rattle.text_encode.specs.Writer.{HasRoom, Wrote};

use crate::writer::Writer;
use list::NEGATIVE;

// The bits of the exponent 0.
const BIAS: u32 = 1023;

fn exponent_of(high: u32) -> u32
    ensures { (result ≡ exponent_of high) × (result < 2 ^ 11) }
{
    high / 0x10_0000 % 2048
}

// The exponent bits whose scale is written. A float goes by its two halves, as a row holds them and the definitions take them; a struct of
// both would only be made from a row and taken apart again.
fn scale_of(low: u32, high: u32) -> u32
    ensures { (result ≡ scale_of low high) × (result < 2 ^ 11) }
{
    let exponent = exponent_of(high);
    if exponent != 0 {
        return exponent;
    }
    if (low == 0) & (high % 0x10_0000 == 0) {
        return BIAS;
    }
    1
}

fn lead_of(high: u32) -> u8
    ensures { result ≡ lead_of high }
{
    if exponent_of(high) == 0 {
        return b'0';
    }
    b'1'
}

impl<'a> Writer<'a> {
    pub fn put_int(&mut self, bits: u32)
        requires { HasRoom self.old (int_text bits) }
        ensures { Wrote self.old self.new (int_text bits) }
    {
        if bits < NEGATIVE {
            self.put_decimal(bits);
        } else {
            self.put(b'-');
            self.put_decimal((0x1_0000_0000 - bits as u64) as u32);
        }
    }

    // p and the exponent of its bits.
    fn put_scale(&mut self, bits: u32)
        requires { HasRoom self.old (scale_text bits) × (bits < 2 ^ 11) }
        ensures { Wrote self.old self.new (scale_text bits) }
    {
        self.put(b'p');
        if BIAS <= bits {
            self.put(b'+');
            self.put_decimal(bits - BIAS);
        } else {
            self.put(b'-');
            self.put_decimal(BIAS - bits);
        }
    }

    fn put_sign(&mut self, high: u32)
        requires { HasRoom self.old (sign_text high) }
        ensures { Wrote self.old self.new (sign_text high) }
    {
        if NEGATIVE <= high {
            self.put(b'-');
        }
    }

    // The digits of a float: 0x, the lead, a point and 13 digits.
    fn put_frame(&mut self, low: u32, high: u32)
        requires { HasRoom self.old (frame_text low high) }
        ensures { Wrote self.old self.new (frame_text low high) }
    {
        self.put(b'0');
        self.put(b'x');
        self.put(lead_of(high));
        self.put(b'.');
        self.put_hex(5, high % 0x10_0000);
        self.put_hex(8, low);
    }

    pub fn put_float(&mut self, low: u32, high: u32)
        requires { HasRoom self.old (float_text low high) }
        ensures { Wrote self.old self.new (float_text low high) }
    {
        self.put_sign(high);
        self.put_frame(low, high);
        self.put_scale(scale_of(low, high));
    }
}
