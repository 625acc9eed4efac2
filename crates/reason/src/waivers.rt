// The automatic lines of an exchange grouping.
ghost use Rattle.std.specs.Prelude.{◌≡◌, ◌≤◌, ◌<◌};
ghost use Rattle.wire.specs.Choose.{last_below};
ghost use Rattle.rules.specs.Marks.{places};
ghost use Rattle.reason.specs.Parts.{automatic_in, number_in, two_in};

use crate::Waiver;
use crate::firm::FirmMonth;
use rules::PLACES;

// The mark of an automatic line.
const AUTOMATIC: u8 = 4;

// The places of the last two automatic lines, the earlier first; where there is one alone, it stands first.
#[derive(Clone, Copy, Debug, PartialEq, Eq)]
pub(crate) struct LastTwo {
    pub first: Option<usize>,
    pub second: Option<usize>,
}

// Where an exchange grouping has no automatic line.
const NO_WAIVERS: LastTwo = LastTwo {
    first: None,
    second: None,
};

impl FirmMonth<'_> {
    // Whether the line of place i is an automatic one of an exchange grouping.
    fn is_automatic(&self, e: u8, i: usize) -> bool
        requires { i < places }
        ensures { result ≡ automatic_in self.now e i }
    {
        (self.grouping(i) == e) & (self.month.marks[i] == AUTOMATIC)
    }

    // The number, from 1, of the automatic line of place i in its exchange grouping.
    #[tactic(auto, using(month::proofs::Waivers::from_bool_bit, month::proofs::Loops::counting))]
    pub(crate) fn number(&self, i: usize) -> u16
        requires { i < places }
        ensures { result ≡ number_in self.now i }
    {
        let e = self.grouping(i);
        let mut number = 1;
        for k in 0..i {
            number += u16::from(self.is_automatic(e, k));
        }
        number
    }

    // The last automatic line of an exchange grouping below place n.
    #[tactic(auto, using(crate::proofs::Loops::seeking))]
    fn last_automatic(&self, e: u8, n: usize) -> Option<usize>
        requires { n ≤ places }
        ensures { result ≡ last_below n (automatic_in self.now e) }
    {
        let mut last = None;
        for k in 0..n {
            if self.is_automatic(e, k) {
                last = Some(k);
            }
        }
        last
    }

    // The last two automatic lines of an exchange grouping.
    pub(crate) fn last_two(&self, e: u8) -> LastTwo
        ensures { result ≡ two_in self.now e }
    {
        let Some(later) = self.last_automatic(e, PLACES) else {
            return NO_WAIVERS;
        };
        match self.last_automatic(e, later) {
            None => LastTwo {
                first: Some(later),
                second: None,
            },
            earlier => LastTwo {
                first: earlier,
                second: Some(later),
            },
        }
    }
}
