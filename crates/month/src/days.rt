// A firm's days in the book: refusal 22, the verdicts on its places, the month's sums and exemptions.
ghost use Rattle.std.specs.Prelude.{true, cond, ◌≡◌, ◌≤◌, ◌<◌};
ghost use Rattle.rules.specs.Verdict.{fits};
ghost use Rattle.rules.specs.Month.{exempt};
ghost use Rattle.rules.specs.Marks.{most_groups, places, verdict_at};
ghost use Rattle.lookup.specs.InForce.{rules_of};
ghost use Rattle.book.specs.Book.{cells};
ghost use Rattle.month.specs.Firm.{bytes_of, terms_of, totals_of};
ghost use Rattle.month.specs.Month.{is_excess, any_excess};
ghost use Rattle.month.specs.Parts.{Within, summed_totals, with_day, sums_to, VerdictsAre};

use crate::firm::FirmBook;
use book::cell_in;
use calendar::{days_in, in_effect};
use lookup::Layout;
use rules::{GROUPS, LIMIT, NOT_JUDGED, PLACES, Totals, Verdict, fits, is_violation};
use std::array;

// Whether place i is of a day of the month, and has a number above the limit.
fn excess_at(l: Layout, book: &[u64], firm: u8, i: usize) -> bool
    requires { i < places }
    ensures { result ≡ is_excess l (cells l.groups book.now firm) i }
{
    let day = (i / GROUPS + 1) as u8;
    let c = cell_in(book, l.groups, firm, (i % GROUPS) as u8, day);
    (day <= days_in(l.month)) & !(fits(1, c.totals) & (c.edition <= LIMIT))
}

// Refusal 22: whether a number of the firm, days of the month, is above the limit.
pub(crate) fn has_excess(l: Layout, book: &[u64], firm: u8) -> bool
    ensures { result ≡ any_excess l (cells l.groups book.now firm) }
{
    (0..PLACES).any(|i| excess_at(l, book, firm, i))
}

// The sums of raw, score and lots over the counted days, and how many these are.
#[derive(Clone, Copy, Debug, PartialEq, Eq, Default)]
pub struct MonthSums {
    pub raw: u64,
    pub score: u64,
    pub lots: u64,
    pub days: u64,
}

impl From<MonthSums> for Totals {
    ghost from_gives = { λ sums t. t ≡ summed_totals sums };

    fn from(sums: MonthSums) -> Totals {
        Totals {
            raw: sums.raw,
            score: sums.score,
            lots: sums.lots,
        }
    }
}

impl MonthSums {
    // The sums with a counted day more.
    fn with_day(self, t: Totals) -> MonthSums
        requires within { Within 30 self }
        requires t_value { fits 1 t ≡ true }
        ensures { result ≡ with_day self t }
    {
        MonthSums {
            raw: self.raw + t.raw,
            score: self.score + t.score,
            lots: self.lots + t.lots,
            days: self.days + 1,
        }
    }

    // The sums with a day, which is counted or not.
    fn with_cell(self, counted: bool, t: Totals) -> MonthSums
        requires within { Within 30 self }
        requires t_value { counted ≡ true → fits 1 t ≡ true }
        ensures { result ≡ cond counted (with_day self t) self }
    {
        if counted { self.with_day(t) } else { self }
    }
}

impl FirmBook<'_> {
    // The sums of a group of the firm over the month.
    #[tactic(auto, using(crate::proofs::Exempt::sums_next))]
    pub(crate) fn month_sums(&self, group: u8) -> MonthSums
        requires { group < most_groups }
        ensures { result ≡ sums_to (terms_of self.now) (totals_of self.now) group 31 }
    {
        let l = self.schedule.layout;
        let mut sums = MonthSums::default();
        for day in 1..=31 {
            let t = cell_in(self.book, l.groups, self.firm, group, day).totals;
            let counted = in_effect(l.month, l.closed, day) & (0 < t.raw);
            sums = sums.with_cell(counted, t);
        }
        sums
    }

    // Whether a group of the firm, with these sums, is exempt this month.
    pub(crate) fn is_exempt(&self, g: usize, sums: MonthSums) -> bool
        requires g_lt_most_groups { g < most_groups }
        requires sums_value { sums ≡ sums_to (terms_of self.now) (totals_of self.now) g 31 }
        ensures { result ≡ exempt (rules_of (bytes_of self.now)) (terms_of self.now) (totals_of self.now) g }
    {
        if usize::from(self.schedule.layout.groups) <= g {
            return true;
        }
        let benchmark = u64::from(self.group(g).benchmark);
        let verdict = self
            .rules
            .days_verdict(sums.days, Totals::from(sums), benchmark)
            .unwrap_or(NOT_JUDGED);
        !is_violation(verdict.code)
    }

    // The verdict on place i: past the last group and on a day that is not in effect nothing is judged.
    fn place_verdict(&self, i: usize) -> Verdict
        requires { i < places }
        ensures { result ≡ verdict_at (rules_of (bytes_of self.now)) (terms_of self.now) (totals_of self.now) i }
    {
        let l = self.schedule.layout;
        let g = i % GROUPS;
        let day = (i / GROUPS + 1) as u8;
        if !((g < usize::from(l.groups)) & in_effect(l.month, l.closed, day)) {
            return NOT_JUDGED;
        }
        let benchmark = u64::from(self.group(g).benchmark);
        let t = cell_in(self.book, l.groups, self.firm, g as u8, day).totals;
        self.rules
            .days_verdict(1, t, benchmark)
            .unwrap_or(NOT_JUDGED)
    }

    // The verdicts on the firm's places, day by day.
    pub(crate) fn verdicts(&self) -> [Verdict; PLACES]
        ensures { VerdictsAre result (verdict_at (rules_of (bytes_of self.now)) (terms_of self.now) (totals_of self.now)) }
    {
        array::from_fn(|i| self.place_verdict(i))
    }
}
