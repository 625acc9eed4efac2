// A firm's grants are counted: a mark that costs becomes 5 where a grant names its place.
ghost use Rattle.std.specs.Prelude.{◌≡◌, ◌<◌, get_or};
ghost use Rattle.rules.specs.Marks.{places, granted_mark};
ghost use Rattle.grants.specs.Grants.{stands_at, names};
ghost use Rattle.grants.specs.Parts.{named_by, with_grants};

use crate::list::{Grants, firm_code};
use activity::{DAY, GROUP_CODE};
use rules::{GROUPS, PLACES, is_billed};
use std::array;
use wire::{byte_at, bytes_at};

// The mark of a place that would cost and that a grant names.
const GRANTED: u8 = 5;

impl Grants<'_> {
    // Whether the group with a code stands at place g among the groups.
    fn has_group(&self, code: [u8; 2], g: usize) -> bool
        ensures { result ≡ stands_at self.now.schedule.bytes.now self.now.schedule.layout code g }
    {
        match self.schedule.find_group(code) {
            Some(group) => usize::from(group.index) == g,
            None => false,
        }
    }

    // Whether a grant names place i of the firm with a code.
    #[tactic(auto, unfolding(wire::specs::Choose::all, wire::specs::Lists::joined))]
    fn names(&self, firm: &[u8], i: usize, grant: &[u8]) -> bool
        requires { i < places }
        ensures { result ≡ names self.now.schedule.bytes.now self.now.schedule.layout firm.now i grant.now }
    {
        firm_code(grant) == firm
            && usize::from(byte_at(grant, DAY)) == i / GROUPS + 1
            && self.has_group(bytes_at(grant, GROUP_CODE), i % GROUPS)
    }

    // Whether a grant of the list does.
    fn is_named(&self, firm: &[u8], i: usize) -> bool
        requires { i < places }
        ensures { result ≡ named_by self.now firm.now i }
    {
        (0..self.count()).any(|k| self.names(firm, i, self.at(k)))
    }

    // The mark of place i with the grants, from the marks without.
    fn mark(&self, firm: &[u8], marks: &[u8; PLACES], i: usize) -> u8
        requires { i < places }
        ensures { result ≡ granted_mark (named_by self.now firm.now i) (get_or marks.now i 0) }
    {
        let mark = marks[i];
        if is_billed(mark) && self.is_named(firm, i) {
            GRANTED
        } else {
            mark
        }
    }

    // The marks with the firm's grants, from those without.
    pub(crate) fn give(&self, firm: &[u8], marks: &[u8; PLACES]) -> [u8; PLACES]
        ensures { result ≡ with_grants (named_by self.now firm.now) marks.now }
    {
        array::from_fn(|i| self.mark(firm, marks, i))
    }
}
