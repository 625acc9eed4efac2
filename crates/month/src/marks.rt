// Codes are turned into marks.
ghost use Rattle.std.specs.Prelude.{cond, ◌&&◌, ◌≡◌, ◌+◌, ◌≤◌, ◌<◌, eqb};
ghost use Rattle.wire.specs.Lists.{table};
ghost use Rattle.wire.specs.Sums.{bit};
ghost use Rattle.rules.specs.Marks.{places, mark_of, mark};
ghost use Rattle.month.specs.Parts.{held, held_code, Grouped};

use crate::GroupMonth;
use rules::{GROUPS, PLACES, Rules, Verdict, is_violation};

// The mark of a code, where so many were left before it in its exchange grouping.
#[tactic(auto, unfolding(wire::specs::Choose::choose))]
fn mark_of(p: Rules, code: u8, exempt: bool, before: u16) -> u8
    ensures { result ≡ mark_of p code exempt before }
{
    if !is_violation(code) {
        return 0;
    }
    if code == 5 {
        return 1;
    }
    if exempt {
        return 3;
    }
    if before < p.waivers {
        return 4;
    }
    2
}

// How many were left so far in each exchange grouping.
#[derive(Clone, Copy, Debug, PartialEq, Eq, Default)]
struct Left {
    first: u16,
    second: u16,
}

impl Left {
    // The count of one grouping.
    fn count_in(self, grouping: u8) -> u16
        ensures { result ≡ cond (eqb grouping 1) self.first self.second }
    {
        if grouping == 1 {
            self.first
        } else {
            self.second
        }
    }

    // The counts with a place of a grouping, which was left or not.
    #[tactic(auto, using(crate::proofs::Waivers::from_bool_bit))]
    fn with_place(self, grouping: u8, left: bool) -> Left
        requires { (self.first < 1000) × (self.second < 1000) }
        ensures first { result.first ≡ self.first + bit (eqb grouping 1 && left) }
        ensures second { result.second ≡ self.second + bit (eqb grouping 2 && left) }
    {
        Left {
            first: self.first + u16::from((grouping == 1) & left),
            second: self.second + u16::from((grouping == 2) & left),
        }
    }
}

// The codes of the places.
#[tactic(auto, using(crate::proofs::Loops::filling))]
pub(crate) fn codes_of(verdicts: &[Verdict; PLACES]) -> [u8; PLACES]
    ensures { result ≡ table places (held_code verdicts.now) }
{
    let mut codes = [0; PLACES];
    for (i, code) in codes.iter_mut().enumerate() {
        *code = verdicts[i].code;
    }
    codes
}

// Turns the codes of the places into marks.
#[tactic(auto, using(crate::proofs::Loops::filling, crate::proofs::Loops::counting))]
pub(crate) fn give_marks(
    p: Rules,
    mut marks: [u8; PLACES],
    groups: &[GroupMonth; GROUPS],
) -> [u8; PLACES]
    requires { Grouped (held marks groups.now) }
    ensures { result ≡ table places (mark p (held marks groups.now)) }
{
    let mut left = Left::default();
    for (i, mark) in marks.iter_mut().enumerate() {
        let code = *mark;
        let group = groups[i % GROUPS];
        *mark = mark_of(p, code, group.exempt, left.count_in(group.grouping));
        left = left.with_place(group.grouping, (code == 4) & !group.exempt);
    }
    marks
}
