// The groups of the schedule by their places.
ghost use Rattle.std.specs.Prelude.{◌≡◌, ◌<◌};
ghost use Rattle.rules.specs.Marks.{most_groups};
ghost use Rattle.lookup.specs.Lookup.{group_at};
ghost use Rattle.month.specs.Firm.{bytes_of, layout_of, totals_of};
ghost use Rattle.month.specs.Month.{starts_of, group_month, groups_of};

use crate::GroupMonth;
use crate::firm::FirmBook;
use lookup::{Schedule, group_at};
use records::Group;
use rules::GROUPS;
use std::array;
use wire::u16_at;

// Where the groups stand in the schedule. Past the last group the places mean nothing, and no verdict goes by them.
#[tactic(auto, using(crate::proofs::Loops::walking))]
pub(crate) fn group_starts(schedule: &Schedule) -> [usize; GROUPS]
    ensures { result ≡ starts_of schedule.now.bytes.now schedule.now.layout }
{
    let mut starts = [0; GROUPS];
    let mut at = schedule.layout.first as usize;
    for start in starts.iter_mut() {
        *start = at;
        at += usize::from(u16_at(schedule.bytes, at));
    }
    starts
}

impl FirmBook<'_> {
    // The fields of group g.
    #[tactic(auto, using(wire::proofs::Lists::table_at))]
    pub(crate) fn group(&self, g: usize) -> Group
        requires { g < most_groups }
        ensures { result ≡ group_at (bytes_of self.now) (layout_of self.now) g }
    {
        group_at(self.schedule.bytes, self.starts[g])
    }

    // Group g in the firm's month.
    #[tactic(auto, using(wire::proofs::Lists::table_at), unfolding(crate::specs::Parts::sums_to))]
    fn group_month(&self, g: usize) -> GroupMonth
        requires { g < most_groups }
        ensures { result ≡ group_month (bytes_of self.now) (layout_of self.now) (totals_of self.now) g }
    {
        let sums = self.month_sums(g as u8);
        GroupMonth {
            start: self.starts[g],
            grouping: self.group(g).grouping,
            sums,
            exempt: self.is_exempt(g, sums),
        }
    }

    // The groups by their places.
    pub(crate) fn groups(&self) -> [GroupMonth; GROUPS]
        ensures { result ≡ groups_of (bytes_of self.now) (layout_of self.now) (totals_of self.now) }
    {
        array::from_fn(|g| self.group_month(g))
    }
}
