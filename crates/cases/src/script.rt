// A script that is read from its front on. Past its end stand zeros.
ghost use Rattle.std.specs.Prelude.{◌≡◌, ◌+◌, ◌-◌, length, take, drop, get_or, leb};
ghost use Rattle.wire.specs.Bytes.{u32_at};
ghost use Rattle.wire.specs.Lists.{table};
ghost use Rattle.cases.specs.Script.{u64_at, piece_at, bytes_on, piece_on};

use wire::{bytes_at, tail};

// The bytes of a script, and the place of the next one to read.
#[derive(Clone, Copy)]
pub(crate) struct Script<'a> {
    pub(crate) bytes: &'a [u8],
    pub(crate) at: usize,
}

impl<'a> Script<'a> {
    // A script of which nothing was read.
    pub(crate) fn new(bytes: &'a [u8]) -> Self
        ensures bytes { result.bytes.now ≡ bytes.now }
        ensures at { result.at ≡ 0 }
    {
        Script { bytes, at: 0 }
    }

    // No byte is left to read.
    pub(crate) fn is_done(&self) -> bool
        ensures { result ≡ leb (length self.now.bytes.now) self.now.at }
    {
        self.bytes.len() <= self.at
    }

    // Moves n bytes on, and no further than the script's end; a place past the end stays.
    fn skip(&mut self, n: usize)
        ensures { self.new ≡ bytes_on self.old n }
    {
        self.at += n.min(self.bytes.len().saturating_sub(self.at));
    }

    // The bytes from one place to another, as many of them as the script has.
    fn between(&self, start: usize, end: usize) -> &'a [u8]
        ensures { result.now ≡ take (end - start) (drop start self.now.bytes.now) }
    {
        tail(&self.bytes[..end.min(self.bytes.len())], start)
    }

    // Reads so many bytes.
    fn array<const N: usize>(&mut self) -> [u8; N]
        ensures value { result ≡ table N (λ i. get_or self.old.bytes.now (self.old.at + i) 0) }
        ensures after { self.new ≡ bytes_on self.old N }
    {
        let bytes = bytes_at(self.bytes, self.at);
        self.skip(N);
        bytes
    }

    // Reads a byte.
    #[tactic(auto, unfolding(wire::specs::Lists::joined))]
    pub(crate) fn byte(&mut self) -> u8
        ensures value { result ≡ get_or self.old.bytes.now self.old.at 0 }
        ensures after { self.new ≡ bytes_on self.old 1 }
    {
        u8::from_le_bytes(self.array())
    }

    // Reads a number of four bytes.
    #[tactic(auto, unfolding(wire::specs::Bytes::u16_at, wire::specs::Bytes::u32_at, wire::specs::Lists::joined))]
    pub(crate) fn u32(&mut self) -> u32
        ensures value { result ≡ u32_at self.old.bytes.now self.old.at }
        ensures after { self.new ≡ bytes_on self.old 4 }
    {
        u32::from_le_bytes(self.array())
    }

    // Reads a number of eight bytes.
    #[tactic(auto, unfolding(wire::specs::Bytes::u16_at, wire::specs::Bytes::u32_at, wire::specs::Lists::joined, crate::specs::Script::u64_at))]
    pub(crate) fn u64(&mut self) -> u64
        ensures value { result ≡ u64_at self.old.bytes.now self.old.at }
        ensures after { self.new ≡ bytes_on self.old 8 }
    {
        u64::from_le_bytes(self.array())
    }

    // Reads a piece: its size in four bytes, then its own bytes, which the script's end may cut.
    pub(crate) fn piece(&mut self) -> &'a [u8]
        ensures value { result.now ≡ piece_at self.old.bytes.now self.old.at }
        ensures after { self.new ≡ piece_on self.old }
    {
        let size = self.u32();
        let start = self.at;
        self.skip(size as usize);
        self.between(start, self.at)
    }
}
