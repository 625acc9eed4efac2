// The reason beside a firm's day in a group (document 02, 2.7 and 2.9): the mark of its line, and what goes with it.
#![tactic(auto)]

mod firm;
mod waivers;

ghost use Rattle.std.specs.Prelude.{◌≡◌};
ghost use Rattle.lookup.specs.Lookup.{group_found};
ghost use Rattle.reason.specs.Reason.{reason_meaning, reason_answer};

use book::check_book;
use calendar::has_day;
use firm::FirmMonth;
use grants::granted_month;
use lookup::{GroupPlace, Schedule};
use month::MonthSums;
use refusals::{Cause, Refusal};
use rules::{GROUPS, Sides};

// An automatic waiver: the day and the group code of its line; zeros for a missing one.
#[derive(Clone, Copy, Debug, PartialEq, Eq, Default)]
pub struct Waiver {
    pub day: u8,
    pub code: [u8; 2],
}

// Why a firm's day in a group has its mark, or no line.
#[derive(Clone, Copy, Debug, PartialEq, Eq)]
pub enum Explanation {
    NotAViolation,
    // Both sides of the comparison with the severe multiple.
    Severe(Sides),
    // Its group is exempt: R, S, V and d.
    Monthly(MonthSums),
    // Its number, from 1, among the automatic waivers of its exchange grouping.
    Automatic {
        number: u16,
    },
    Granted,
    // R, S, V and d, and the last two automatic waivers of its exchange grouping, the earlier first; zeros for each missing one.
    Billed {
        sums: MonthSums,
        first: Waiver,
        second: Waiver,
    },
}

// The group with a code, a slice of any length.
fn find_group(schedule: &Schedule, code: &[u8]) -> Option<GroupPlace>
    ensures { result ≡ group_found schedule.now.bytes.now schedule.now.layout code.now }
{
    match code {
        [first, second] => schedule.find_group([*first, *second]),
        _ => None,
    }
}

// The reason for a firm's day in a group, with the grants of a list. Both codes are slices of any length.
pub fn reason(
    schedule: &[u8],
    book: &[u64],
    firm: &[u8],
    day: u8,
    group: &[u8],
    grants: &[u8],
) -> Result<Explanation, Refusal>
    ensures { reason_meaning result ≡ reason_answer schedule.now book.now firm.now day group.now grants.now }
{
    let layout = check_book(schedule, book.len())?;
    let listing = Schedule {
        bytes: schedule,
        layout,
    };
    let group = find_group(&listing, group).ok_or(Cause::UnlistedGroup)?;
    if !has_day(layout.month, day) {
        return Err(Refusal::from(Cause::NoSuchDay));
    }
    let month = granted_month(schedule, book, firm, grants)?;
    let i = (usize::from(day) - 1) * GROUPS + usize::from(group.index);
    let firm_month = FirmMonth {
        schedule,
        book,
        month: &month,
    };
    Ok(firm_month.explain(i))
}
