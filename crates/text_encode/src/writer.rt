// The area that takes a text. There is room for what each of the methods writes.
ghost use Rattle.std.specs.Prelude.{[], ◌∷◌};
ghost use Rattle.text.specs.Text.{gap};
ghost use Rattle.text_encode.specs.Writer.{HasRoom, Wrote};

// A text area, and the end of what was written to it.
#[derive(Drop)]
pub struct Writer<'a> {
    pub text: &'a mut [u8],
    pub end: usize,
}

impl<'a> Writer<'a> {
    // One character.
    pub fn put(&mut self, c: u8)
        requires { HasRoom self.old (c ∷ []) }
        ensures { Wrote self.old self.new (c ∷ []) }
    {
        self.text[self.end] = c;
        self.end += 1;
    }

    // The space between two elements, or two bytes of a blob; none stands before the first and behind the last.
    // `none` stays a flag: the definition `gap`, by which the texts are stated, takes one.
    pub fn put_gap(&mut self, none: bool)
        requires { HasRoom self.old (gap none) }
        ensures { Wrote self.old self.new (gap none) }
    {
        if !none {
            self.put(b' ');
        }
    }
}
