// Strings, blobs and vocabs.
ghost use Rattle.std.specs.Prelude.{true, ◌∷◌};
ghost use Rattle.digits.specs.Decimal.{decimal};
ghost use Rattle.digits.specs.Fixed.{fixed};
ghost use Rattle.text.specs.Text.{char_text, chars_text, string_text, bytes_text, blob_text, letters, vocab_text};
ghost use Rattle.text_encode.specs.Writer.{HasRoom, Wrote};

use crate::writer::Writer;
use text_value::{is_marked, is_printed};

impl<'a> Writer<'a> {
    // A backslash and three octal digits. The end moves once: a string of 3,900 such bytes takes 83,417 instructions, by four puts 87,317.
    fn put_octal(&mut self, b: u8)
        requires { HasRoom self.old (92 ∷ fixed 8 3 b) }
        ensures { Wrote self.old self.new (92 ∷ fixed 8 3 b) }
    {
        let at = self.end;
        self.text[at] = b'\\';
        self.text[at + 1] = b'0' + b / 64;
        self.text[at + 2] = b'0' + b / 8 % 8;
        self.text[at + 3] = b'0' + b % 8;
        self.end += 4;
    }

    // A byte with its escape.
    fn put_char_text(&mut self, b: u8)
        requires { HasRoom self.old (char_text b) }
        ensures { Wrote self.old self.new (char_text b) }
    {
        if is_printed(b) {
            if is_marked(b) {
                self.put(b'\\');
            }
            self.put(b);
        } else {
            self.put_octal(b);
        }
    }

    fn put_chars(&mut self, bytes: &[u8])
        requires { HasRoom self.old (chars_text bytes.now) }
        ensures { Wrote self.old self.new (chars_text bytes.now) }
    {
        for b in bytes {
            self.put_char_text(*b);
        }
    }

    pub fn put_string(&mut self, bytes: &[u8])
        requires { HasRoom self.old (string_text bytes.now) }
        ensures { Wrote self.old self.new (string_text bytes.now) }
    {
        self.put(b'"');
        self.put_chars(bytes);
        self.put(b'"');
    }

    // A byte in decimal.
    fn put_byte(&mut self, b: u8)
        requires { HasRoom self.old (decimal b) }
        ensures { Wrote self.old self.new (decimal b) }
    {
        if b < 10 {
            self.put(b'0' + b);
        } else if b < 100 {
            self.put(b'0' + b / 10);
            self.put(b'0' + b % 10);
        } else {
            self.put(b'0' + b / 100);
            self.put(b'0' + b / 10 % 10);
            self.put(b'0' + b % 10);
        }
    }

    fn put_bytes(&mut self, bytes: &[u8])
        requires { HasRoom self.old (bytes_text true bytes.now) }
        ensures { Wrote self.old self.new (bytes_text true bytes.now) }
    {
        // A flag, as the definition `bytes_text` has it; by `enumerate` an index would be counted for the first turn alone.
        let mut first = true;
        for b in bytes {
            self.put_gap(first);
            self.put_byte(*b);
            first = false;
        }
    }

    pub fn put_blob(&mut self, bytes: &[u8])
        requires { HasRoom self.old (blob_text bytes.now) }
        ensures { Wrote self.old self.new (blob_text bytes.now) }
    {
        self.put(b'{');
        self.put_bytes(bytes);
        self.put(b'}');
    }

    // The bytes below the first zero.
    fn put_letters(&mut self, bits: u32)
        requires { HasRoom self.old (letters bits) }
        ensures { Wrote self.old self.new (letters bits) }
    {
        let mut left = bits;
        // No `for`: the first zero byte ends the letters, and no index is counted.
        while left % 256 != 0 {
            self.put((left % 256) as u8);
            left = left / 256;
        }
    }

    pub fn put_vocab(&mut self, bits: u32)
        requires { HasRoom self.old (vocab_text bits) }
        ensures { Wrote self.old self.new (vocab_text bits) }
    {
        self.put(b'[');
        self.put_letters(bits);
        self.put(b']');
    }
}
