// Text in an output. No writer asks for room: what has none is left out, and the output says so.
#![tactic(auto)]

mod lines;

ghost use Rattle.std.specs.Prelude.{◌++◌, ◌≡◌, true};
ghost use Rattle.text.specs.Text.{decimal, field, Wrote};

pub use lines::Line;

// The bytes of an output, the next free one of them, and whether all that was written so far had room.
#[derive(Drop)]
pub struct Output<'a> {
    bytes: &'a mut [u8],
    pub at: usize,
    pub whole: bool,
}

impl<'a> Output<'a> {
    // An output that is written from its front on.
    pub fn new(bytes: &'a mut [u8]) -> Output<'a>
        ensures same_reference { result.bytes.ghost_name ≡ bytes.entry.ghost_name }
        ensures bytes { result.bytes.now ≡ bytes.old }
        ensures at { result.at ≡ 0 }
        ensures whole { result.whole ≡ true }
    {
        Output {
            bytes,
            at: 0,
            whole: true,
        }
    }

    // Writes a text, as much of it as there is room for.
    pub(crate) fn put(&mut self, text: &[u8])
        ensures { Wrote self.old text.now self.new }
    {
        let from = self.at.min(self.bytes.len());
        let n = text.len().min(self.bytes.len() - from);
        self.bytes[from..from + n].copy_from_slice(&text[..n]);
        self.at += n;
        self.whole &= n == text.len();
    }

    // Writes a number in decimal.
    pub(crate) fn put_decimal(&mut self, n: u64)
        ensures { Wrote self.old (decimal n) self.new }
    {
        let mut digits = [0; 20];
        let k = io::decimal(n, &mut digits);
        self.put(&digits[..k]);
    }

    // Writes a text, a number and a text.
    pub(crate) fn put_number(&mut self, before: &[u8], n: u64, after: &[u8])
        ensures { Wrote self.old (before.now ++ decimal n ++ after.now) self.new }
    {
        self.put(before);
        self.put_decimal(n);
        self.put(after);
    }

    // Writes a space and a number.
    pub(crate) fn put_field(&mut self, n: u64)
        ensures { Wrote self.old (field n) self.new }
    {
        self.put(b" ");
        self.put_decimal(n);
    }
}
