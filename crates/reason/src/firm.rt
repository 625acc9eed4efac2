// The reason for a place, out of a firm's month.
ghost use Rattle.std.specs.Prelude.{ℕ, Some, ◌≡◌, ◌≤◌, ◌<◌};
ghost use Rattle.rules.specs.Marks.{places, group_of};
ghost use Rattle.reason.specs.Beside.{reason_of, waiver_at};
ghost use Rattle.reason.specs.Parts.{grouping_in, marks_in, fields_in, sides_in, reason_in};

use crate::{Explanation, Waiver};
use book::cell_in;
use lookup::{group_at, rules_of};
use month::Month;
use records::Group;
use rules::{GROUPS, Sides};

// A firm's month, with the schedule and the book that it is of.
#[derive(Clone, Copy, Debug, PartialEq, Eq)]
pub(crate) struct FirmMonth<'a> {
    pub schedule: &'a [u8],
    pub book: &'a [u64],
    pub month: &'a Month,
}

impl FirmMonth<'_> {
    // The exchange grouping of the group of place i.
    pub(crate) fn grouping(&self, i: usize) -> u8
        requires { i < places }
        ensures { result ≡ grouping_in self.now i }
    {
        self.month.groups[i % GROUPS].grouping
    }

    // The fields of the group of place i.
    fn group(&self, i: usize) -> Group
        requires { i < places }
        ensures { result ≡ fields_in self.now (group_of i) }
    {
        group_at(self.schedule, self.month.groups[i % GROUPS].start)
    }

    // The waiver at a place; zeros, where there is none.
    fn waiver(&self, place: Option<usize>) -> Waiver
        requires { (i : ℕ) → place ≡ Some i → i < places }
        ensures { result ≡ waiver_at (fields_in self.now) place }
    {
        match place {
            None => Waiver::default(),
            Some(i) => {
                let code = self.group(i).code;
                Waiver {
                    day: (i / GROUPS + 1) as u8,
                    code,
                }
            }
        }
    }

    // Both sides of the comparison with the severe multiple, of place i; zeros where 24 refuses the day.
    fn sides(&self, i: usize) -> Sides
        requires { i < places }
        ensures { result ≡ sides_in self.now i }
    {
        let benchmark = u64::from(self.group(i).benchmark);
        let day = (i / GROUPS + 1) as u8;
        let groups = self.month.layout.groups;
        let cell = cell_in(self.book, groups, self.month.firm, (i % GROUPS) as u8, day);
        rules_of(self.schedule)
            .day_sides(cell.totals, benchmark)
            .unwrap_or_default()
    }

    // What stands beside the line of place i.
    pub(crate) fn explain(&self, i: usize) -> Explanation
        requires i_lt_places { i < places }
        requires mark_value { marks_in self.now i ≤ 5 }
        ensures { reason_of result ≡ reason_in self.now i }
    {
        let sums = self.month.groups[i % GROUPS].sums;
        match self.month.marks[i] {
            0 => Explanation::NotAViolation,
            1 => Explanation::Severe(self.sides(i)),
            3 => Explanation::Monthly(sums),
            4 => Explanation::Automatic {
                number: self.number(i),
            },
            5 => Explanation::Granted,
            // 2, billed: no mark is above 5.
            _ => {
                let waivers = self.last_two(self.grouping(i));
                Explanation::Billed {
                    sums,
                    first: self.waiver(waivers.first),
                    second: self.waiver(waivers.second),
                }
            }
        }
    }
}
