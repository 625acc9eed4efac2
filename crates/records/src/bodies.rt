// Where a record's body stands, and the kinds and lengths of a schedule's records.
ghost use Rattle.std.specs.Prelude.{◌≡◌};
ghost use Rattle.records.specs.Bodies.{rest_at, body_at};

use wire::{tail, u16_at};

// The kinds of a head, of constants, of a group and of a firm.
pub const HEAD_KIND: u16 = 1;

pub const CONSTANTS_KIND: u16 = 6;

pub const GROUP_KIND: u16 = 2;

pub const FIRM_KIND: u16 = 3;

// The bytes of a head, of constants, of the smallest and the largest group, and of a firm.
pub const HEAD_SIZE: usize = 10;

pub const CONSTANTS_SIZE: usize = 28;

pub const GROUP_LEAST: usize = 18;

pub const GROUP_MOST: usize = 144;

pub const FIRM_SIZE: usize = 7;

// The bytes after length and kind of the record at a place, to the end.
pub fn rest_at(s: &[u8], at: usize) -> &[u8]
    ensures { result.now ≡ rest_at s.now at }
{
    tail(tail(s, at), 4)
}

// The body of the record at a place, cut short at the end of the bytes.
#[tactic(auto, using(crate::proofs::Parts::take_least))]
pub fn body_at(s: &[u8], at: usize) -> &[u8]
    ensures { result.now ≡ body_at s.now at }
{
    let rest = rest_at(s, at);
    let size = usize::from(u16_at(s, at)).saturating_sub(4);
    &rest[..size.min(rest.len())]
}
