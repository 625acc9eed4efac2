// The posted records. Here the activity record: its kind, its length, where its fields stand, whether its minimum quantities are possible,
// and what it adds to its cell.
#![tactic(auto)]

mod correction;

ghost use Rattle.std.specs.Prelude.{◌≡◌, ◌+◌, ◌<◌, ◌^◌};
ghost use Rattle.activity.specs.Activity.{is_activity, minimum_quantity_impossible, raw_count, score, totals_of};
ghost use Rattle.wire.specs.Bytes.{u32_at};

pub use correction::{CORRECTION_LENGTH, Correction, correction_fields, is_correction, is_sound};
use rules::Totals;
use wire::{u16_at, u32_at};

const ACTIVITY_KIND: u16 = 4;

pub const ACTIVITY_LENGTH: usize = 44;

// A correction and a grant have their firm, day and group at the same places.
pub const FIRM_CODE: usize = 4;

pub const DAY: usize = 7;

pub const GROUP_CODE: usize = 8;

pub const CONTRACT: usize = 10;

const NEW_ORDERS: usize = 12;

const MODIFICATIONS: usize = 16;

const CANCELLATIONS: usize = 20;

const FAK_FOK: usize = 24;

const MASS_REQUESTS: usize = 28;

const MASS_REPORTS: usize = 32;

const MINIMUM_QUANTITY: usize = 36;

const LOTS: usize = 40;

// The record's kind is that of activity.
pub fn is_activity(record: &[u8]) -> bool
    ensures { result ≡ is_activity «record».now }
{
    u16_at(record, 2) == ACTIVITY_KIND
}

// The count of messages or lots at an offset.
fn count_at(record: &[u8], at: usize) -> u64
    ensures { (result ≡ u32_at «record».now at) × (result < 2 ^ 32) }
{
    u64::from(u32_at(record, at))
}

// Document 02, 2.5: more minimum-quantity orders than new orders and FAK/FOK orders together.
pub fn minimum_quantity_impossible(record: &[u8]) -> bool
    ensures { result ≡ minimum_quantity_impossible «record».now }
{
    let orders = count_at(record, NEW_ORDERS) + count_at(record, FAK_FOK);
    orders < count_at(record, MINIMUM_QUANTITY)
}

// The Program, section 2: the raw message count. FAK and FOK orders are its eliminations.
fn raw_count(record: &[u8]) -> u64
    ensures { result ≡ raw_count «record».now }
{
    count_at(record, NEW_ORDERS)
        + count_at(record, MODIFICATIONS)
        + count_at(record, CANCELLATIONS)
        + count_at(record, FAK_FOK)
}

// The Program, section 2: the messaging score, each count times its factor, step by step in the order of the section's text. New orders,
// whose factor is 0, have no step.
fn messaging_score(record: &[u8]) -> u64
    ensures { result ≡ score «record».now }
{
    let mut score: u64 = 0;
    score += count_at(record, MODIFICATIONS) * 1; // Order Modification
    score += count_at(record, CANCELLATIONS) * 3; // Order Cancellation
    score += count_at(record, MASS_REQUESTS) * 3; // Order Mass Action Request
    score += count_at(record, MASS_REPORTS) * 3; // Order Mass Action Report
    score += count_at(record, FAK_FOK) * 3; // TimeInForce: FAK or FOK order types
    score += count_at(record, MINIMUM_QUANTITY) * 3; // MinQty: in the table, not in the formula (document 02, 2.2)
    score
}

// What an activity record adds to its cell.
#[tactic(auto, unfolding(crate::specs::Activity::totals_of))]
pub fn totals_of(record: &[u8]) -> Totals
    ensures { result ≡ totals_of «record».now }
{
    Totals {
        raw: raw_count(record),
        score: messaging_score(record),
        lots: count_at(record, LOTS),
    }
}
