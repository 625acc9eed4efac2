// A list of grants, grant by grant, and the causes that refuse it.
ghost use Rattle.std.specs.Prelude.{◌≡◌, ◌≤◌, ◌<◌, length, take, drop};
ghost use Rattle.wire.specs.Choose.{choose};
ghost use Rattle.activity.specs.Activity.{firm_code};
ghost use Rattle.refusals.specs.Outcome.{cause_number};
ghost use Rattle.grants.specs.Grants.{grants_in, grant_at, is_whole, has_cell, grant_causes};
ghost use Rattle.grants.specs.Parts.{causes_of};

use activity::{DAY, FIRM_CODE, GROUP_CODE};
use calendar::has_day;
use lookup::Schedule;
use refusals::Cause;
use wire::{byte_at, bytes_at, tail, u16_at};

const GRANT_KIND: u16 = 9;

// The bytes of a grant.
pub const GRANT: usize = 10;

// So many bytes from a place on, or those that are there.
#[tactic(auto, using(records::proofs::Parts::take_least))]
fn part(bytes: &[u8], at: usize, n: usize) -> &[u8]
    ensures { result.now ≡ take n (drop at bytes.now) }
{
    let rest = tail(bytes, at);
    &rest[..n.min(rest.len())]
}

// The code of a grant's firm; of a cut grant what is there.
pub(crate) fn firm_code(grant: &[u8]) -> &[u8]
    ensures { result.now ≡ firm_code grant.now }
{
    part(grant, FIRM_CODE, 3)
}

// The grant is not cut, and has the right length and kind.
#[tactic(auto, unfolding(wire::specs::Choose::all))]
fn is_whole(grant: &[u8]) -> bool
    ensures { result ≡ is_whole grant.now }
{
    (grant.len() == GRANT)
        & (usize::from(u16_at(grant, 0)) == GRANT)
        & (u16_at(grant, 2) == GRANT_KIND)
}

// The grants of a statement, and the schedule that they are read by.
#[derive(Clone, Copy, Debug, PartialEq, Eq)]
pub(crate) struct Grants<'a> {
    pub schedule: Schedule<'a>,
    pub bytes: &'a [u8],
}

impl<'a> Grants<'a> {
    // How many there are, a cut one among them.
    pub(crate) fn count(&self) -> usize
        ensures { result ≡ grants_in self.now.bytes.now }
    {
        self.bytes.len().div_ceil(GRANT)
    }

    // Grant k; of a cut one what is there.
    pub(crate) fn at(&self, k: usize) -> &'a [u8]
        requires { k < grants_in self.now.bytes.now }
        ensures { result.now ≡ grant_at self.now.bytes.now k }
    {
        part(self.bytes, GRANT * k, GRANT)
    }

    // The grant's firm and group are listed, and its day is in the month.
    #[tactic(auto, using(lookup::proofs::Laws::some_found), unfolding(wire::specs::Choose::all, wire::specs::Lists::joined, lookup::specs::Lookup::firm_found, lookup::specs::Lookup::group_found))]
    fn has_cell(&self, grant: &[u8]) -> bool
        ensures { result ≡ has_cell self.now.schedule.bytes.now self.now.schedule.layout grant.now }
    {
        self.schedule.find_firm(firm_code(grant)).is_some()
            & self
                .schedule
                .find_group(bytes_at(grant, GROUP_CODE))
                .is_some()
            & has_day(self.schedule.layout.month, byte_at(grant, DAY))
    }

    // The causes 34 and 35 of one grant.
    #[tactic(auto, unfolding(wire::specs::Choose::choose))]
    fn check_grant(&self, grant: &[u8]) -> Result<(), Cause>
        ensures { cause_number result ≡ choose (grant_causes self.now.schedule.bytes.now self.now.schedule.layout grant.now) 0 }
    {
        if !is_whole(grant) {
            return Err(Cause::MalformedGrant);
        }
        if !self.has_cell(grant) {
            return Err(Cause::NoSuchCell);
        }
        Ok(())
    }

    // The first cause, 34 or 35, grant by grant.
    pub(crate) fn check(&self) -> Result<(), Cause>
        ensures { cause_number result ≡ choose (causes_of self.now) 0 }
    {
        for k in 0..self.count() {
            self.check_grant(self.at(k))?;
        }
        Ok(())
    }
}
