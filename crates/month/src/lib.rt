// One firm's month out of the book: refused by 1 to 8, 21, 22, 37 or 38, or its verdicts, exemptions and marks without grants.
#![tactic(auto)]

mod days;
mod firm;
mod groups;
mod marks;

ghost use Rattle.std.specs.Prelude.{◌≡◌};
ghost use Rattle.month.specs.Firm.{bytes_of, layout_of};
ghost use Rattle.rules.specs.Marks.{no_grants};
ghost use Rattle.month.specs.Month.{MonthIs, HeldMonth};

use book::check_book;
pub use days::MonthSums;
use days::has_excess;
use firm::FirmBook;
use groups::group_starts;
use lookup::{Layout, Schedule, rules_of};
use marks::{codes_of, give_marks};
use refusals::{Cause, Refusal};
use rules::{GROUPS, PLACES, Verdict};

// A group in a firm's month: where it stands in the schedule, its exchange grouping, its sums over the counted days, and whether it is
// exempt.
#[derive(Clone, Copy, Debug, PartialEq, Eq)]
pub struct GroupMonth {
    pub start: usize,
    pub grouping: u8,
    pub sums: MonthSums,
    pub exempt: bool,
}

// What the schedule holds; the firm's place among its firms; its groups; of each place (day by day, in each day group by group) the verdict
// and the mark.
#[derive(Clone, Copy, Debug, PartialEq, Eq)]
pub struct Month {
    pub layout: Layout,
    pub firm: u8,
    pub groups: [GroupMonth; GROUPS],
    pub verdicts: [Verdict; PLACES],
    pub marks: [u8; PLACES],
}

// The month of a firm.
fn judged_month(firm: &FirmBook) -> Month
    ensures { HeldMonth (bytes_of firm.now) (layout_of firm.now) firm.now.book.now firm.now.firm no_grants result }
{
    let groups = firm.groups();
    let verdicts = firm.verdicts();
    let marks = give_marks(firm.rules, codes_of(&verdicts), &groups);
    Month {
        layout: firm.schedule.layout,
        firm: firm.firm,
        groups,
        verdicts,
        marks,
    }
}

// The month, without grants, of the firm with a code, a slice of any length.
#[tactic(auto, using(crate::proofs::Answers::refusing))]
pub fn firm_month(schedule: &[u8], book: &[u64], code: &[u8]) -> Result<Month, Refusal>
    ensures { MonthIs schedule.now book.now code.now result }
{
    let layout = check_book(schedule, book.len())?;
    let schedule = Schedule {
        bytes: schedule,
        layout,
    };
    let firm = schedule.find_firm(code).ok_or(Cause::NoSuchFirm)?;
    if has_excess(layout, book, firm) {
        return Err(Refusal::from(Cause::Excess));
    }
    let starts = group_starts(&schedule);
    let rules = rules_of(schedule.bytes);
    Ok(judged_month(&FirmBook {
        schedule,
        starts,
        rules,
        book,
        firm,
    }))
}
