// Text put into a lent buffer. A byte past the buffer's end is counted and not stored, so a first pass over an empty buffer
// learns a text's length.
#![tactic(auto)]

ghost use Rattle.std.specs.Prelude.{◌≡◌, ◌≤◌, ◌∷◌, []};
ghost use Rattle.text.specs.Put.{last_position};

// A lent buffer and the place of its next byte.
#[derive(Drop)]
pub struct Writer<'a> {
    pub out: &'a mut [u8],
    pub at: usize,
    ghost placed: { at ≤ last_position },
}

impl<'a> Writer<'a> {
    ghost use Rattle.text.specs.Put.{Put};
    ghost use Rattle.text.specs.Wrote.{Wrote};

    // From the buffer's start on.
    pub fn new(out: &'a mut [u8]) -> Writer<'a>
        ensures same { result.out.ghost_name ≡ out.entry.ghost_name }
        ensures held { result.out.now ≡ out.old }
        ensures start { result.at ≡ 0 }
    {
        Writer { out, at: 0 }
    }

    // One byte. The place stays at the largest one.
    #[inline(always)]
    pub fn put_byte(&mut self, b: u8)
        ensures { Wrote self.old (b ∷ []) self.new }
    {
        if self.at < self.out.len() {
            self.out[self.at] = b;
        }
        self.at = self.at.saturating_add(1);
    }

    // The bytes of `s`, one by one.
    #[inline(always)]
    fn put_each(&mut self, s: &[u8])
        ensures { Wrote self.old s.now self.new }
    {
        for b in s {
            self.put_byte(*b);
        }
    }

    // The bytes of `s` into a buffer from `at` on: the place after them, which the compiler keeps in a register.
    fn put_from(out: &mut [u8], at: usize, s: &[u8]) -> usize
        ensures { Put out.old at s.now out.new result }
    {
        let mut w = Writer { out, at };
        w.put_each(s);
        w.at
    }

    // The bytes of `s`.
    pub fn put(&mut self, s: &[u8])
        ensures { Wrote self.old s.now self.new }
    {
        self.at = Writer::put_from(self.out, self.at, s);
    }
}
