// The correction, a record that replaces a cell: its kind, its length and its fields.
ghost use Rattle.std.specs.Prelude.{◌≡◌};
ghost use Rattle.activity.specs.Correction.{is_correction, correction_fields, is_sound};

use rules::Totals;
use wire::{u16_at, u32_at};

const CORRECTION_KIND: u16 = 8;

pub const CORRECTION_LENGTH: usize = 32;

const ZERO_16: usize = 10;

const EDITION: usize = 12;

const RAW: usize = 16;

const SCORE: usize = 20;

const LOTS: usize = 24;

const ZERO_32: usize = 28;

// What a correction says beside its firm, day and group: the edition, the totals that the cell is set to, and two fields that must be zero.
#[derive(Clone, Copy, Debug, PartialEq, Eq)]
pub struct Correction {
    pub zero16: u16,
    pub edition: u32,
    pub totals: Totals,
    pub zero32: u32,
}

// The record's kind is that of a correction.
pub fn is_correction(record: &[u8]) -> bool
    ensures { result ≡ is_correction «record».now }
{
    u16_at(record, 2) == CORRECTION_KIND
}

// A correction's fields.
#[tactic(auto, unfolding(crate::specs::Correction::correction_fields))]
pub fn correction_fields(record: &[u8]) -> Correction
    ensures { result ≡ correction_fields «record».now }
{
    let totals = Totals {
        raw: u64::from(u32_at(record, RAW)),
        score: u64::from(u32_at(record, SCORE)),
        lots: u64::from(u32_at(record, LOTS)),
    };
    Correction {
        zero16: u16_at(record, ZERO_16),
        edition: u32_at(record, EDITION),
        totals,
        zero32: u32_at(record, ZERO_32),
    }
}

// The zero fields are zero, and the edition is not.
#[tactic(auto, unfolding(wire::specs::Choose::all))]
pub fn is_sound(c: Correction) -> bool
    ensures { result ≡ is_sound c }
{
    (c.zero16 == 0) & (1 <= c.edition) & (c.zero32 == 0)
}
