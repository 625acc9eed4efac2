// Little-endian numbers of a byte string, the cut of a run of records, and a fill of numbers. Every reader of a number is total: past the
// end stand zeros.
#![tactic(auto)]

ghost use Rattle.std.specs.Prelude.{◌≡◌, ◌+◌, ◌≤◌, min, length, drop, get_or};
ghost use Rattle.std.specs.Iterator.{YieldsFirstRef, item_count};
ghost use Rattle.wire.specs.Bytes.{u16_at, u32_at};
ghost use Rattle.wire.specs.Cut.{first_length, cut, records_in};
ghost use Rattle.wire.specs.Lists.{table, over};

use std::array;

// The item at a place, or another one past the end.
pub fn item_or<T: Copy>(items: &[T], at: usize, other: T) -> T
    ensures { result ≡ get_or items.now at other }
{
    items.get(at).copied().unwrap_or(other)
}

// The byte at a place.
pub fn byte_at(s: &[u8], at: usize) -> u8
    ensures { result ≡ get_or s.now at 0 }
{
    item_or(s, at, 0)
}

// The bytes from a place to the end.
pub fn tail(s: &[u8], at: usize) -> &[u8]
    ensures { result.now ≡ drop at s.now }
{
    s.get(at..).unwrap_or(&[])
}

// So many bytes from a place on.
pub fn bytes_at<const N: usize>(s: &[u8], at: usize) -> [u8; N]
    ensures { result ≡ table N (λ i. get_or s.now (at + i) 0) }
{
    let rest = tail(s, at);
    array::from_fn(|i| byte_at(rest, i))
}

// The number of two bytes at a place.
#[tactic(auto, unfolding(crate::specs::Bytes::u16_at, crate::specs::Lists::joined))]
pub fn u16_at(s: &[u8], at: usize) -> u16
    ensures { result ≡ u16_at s.now at }
{
    u16::from_le_bytes(bytes_at(s, at))
}

// The number of four bytes at a place.
#[tactic(auto, unfolding(crate::specs::Bytes::u16_at, crate::specs::Bytes::u32_at, crate::specs::Lists::joined))]
pub fn u32_at(s: &[u8], at: usize) -> u32
    ensures { result ≡ u32_at s.now at }
{
    u32::from_le_bytes(bytes_at(s, at))
}

// How many bytes the first record of a run takes: all of them, where its length field is under four or past the end.
#[tactic(auto, using(crate::proofs::Cut::first_under, crate::proofs::Cut::first_least))]
pub fn first_len(run: &[u8]) -> usize
    ensures { result ≡ first_length run.now }
{
    let len = usize::from(u16_at(run, 0));
    if len < 4 {
        run.len()
    } else {
        len.min(run.len())
    }
}

// The records of a run that are left, from its front on.
#[derive(Clone, Copy, Debug)]
pub struct Records<'a> {
    rest: &'a [u8],
}

impl<'a> Records<'a> {
    // All records of a run.
    pub fn new(run: &'a [u8]) -> Records<'a>
        ensures { records_in result ≡ cut run.now }
    {
        Records { rest: run }
    }
}

impl<'a> Iterator for Records<'a> {
    type Item = &'a [u8];

    ghost next_gives = { YieldsFirstRef records_in };

    ghost remaining = { item_count records_in };

    #[tactic(auto, using(crate::proofs::Cut::records_none, crate::proofs::Cut::first_most, crate::proofs::Cut::records_more))]
    fn next(&mut self) -> Option<&'a [u8]> {
        let run = self.rest;
        if run.is_empty() {
            return None;
        }
        let (record, rest) = run.split_at(first_len(run));
        self.rest = rest;
        Some(record)
    }
}

// Sets the first n numbers to a value, all of them where there are no more.
pub fn fill(numbers: &mut [u64], n: usize, value: u64)
    ensures { numbers.new ≡ over (table (min n (length numbers.old)) (λ i. value)) numbers.old }
{
    let most = n.min(numbers.len());
    numbers[..most].fill(value);
}
