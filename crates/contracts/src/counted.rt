// Which of a group's listed contracts are counted.
ghost use Rattle.std.specs.Prelude.{◌≡◌, ◌≤◌, ◌<◌, ◌&&◌, leb};
ghost use Rattle.records.specs.Fields.{group_fields};
ghost use Rattle.contracts.specs.Listing.{listed};
ghost use Rattle.contracts.specs.Counted.{in_mask, PassedIs, is_counted, contract_found, status_meaning, status_of};

use crate::listing::{contract_at, listed_in};
use records::{Group, group_fields};

// How a group takes a contract.
#[derive(Clone, Copy, Debug, PartialEq, Eq)]
pub enum Status {
    Unlisted,
    Listed,
    Counted,
}

// Of the contracts before a place: how many are in the front mask, and how many have k of those before them and are in the extra mask.
#[derive(Clone, Copy, Debug, PartialEq, Eq)]
struct Passed {
    front: usize,
    extra: usize,
}

// A group's body with its fields.
#[derive(Clone, Copy, Debug, PartialEq, Eq)]
struct GroupBody<'a> {
    body: &'a [u8],
    group: Group,
    ghost fields: { group ≡ group_fields body.now },
}

fn in_mask(mask: u16, m: u16) -> bool
    ensures { result ≡ in_mask mask m }
{
    (mask >> (m % 12)) % 2 == 1
}

impl GroupBody<'_> {
    // A contract has k others of the front mask before it, `front` in all, and is in the extra mask.
    fn is_late(&self, front: usize, m: u16) -> bool
        ensures { result ≡ leb self.now.group.k front && in_mask self.now.group.extra m }
    {
        usize::from(self.group.k) <= front && in_mask(self.group.extra, m)
    }

    // What stands before place n of the listing.
    #[tactic(auto, using(wire::proofs::Sums::count_most, wire::proofs::Sums::sum_more), unfolding(crate::specs::Counted::in_front, crate::specs::Counted::is_after, crate::specs::Counted::is_late))]
    fn passed_before(&self, n: usize) -> Passed
        requires { n ≤ listed self.now.body.now }
        ensures { PassedIs self.now.body.now n result }
    {
        let mut front = 0;
        let mut extra = 0;
        for i in 0..n {
            let m = contract_at(self.body, i);
            extra += usize::from(self.is_late(front, m));
            front += usize::from(in_mask(self.group.front, m));
        }
        Passed { front, extra }
    }

    // Whether the contract at place i of the listing is counted.
    #[tactic(auto, unfolding(crate::specs::Counted::is_counted, crate::specs::Counted::is_late, crate::specs::Counted::in_front, crate::specs::Counted::is_after))]
    fn is_counted(&self, i: usize) -> bool
        requires { i < listed self.now.body.now }
        ensures { result ≡ is_counted self.now.body.now i }
    {
        let passed = self.passed_before(i);
        let m = contract_at(self.body, i);
        if passed.front < usize::from(self.group.k) {
            in_mask(self.group.front, m)
        } else {
            passed.extra == 0 && in_mask(self.group.extra, m)
        }
    }

    // The place of a contract in the listing, where it is listed.
    fn find(&self, m: u16) -> Option<usize>
        ensures { result ≡ contract_found self.now.body.now m }
    {
        (0..listed_in(self.body)).find(|&i| contract_at(self.body, i) == m)
    }
}

// How the group with this body takes a contract.
#[tactic(auto, unfolding(crate::specs::Counted::status_of, crate::specs::Counted::contract_found, crate::specs::Counted::contract_listed, crate::specs::Counted::contract_counted, wire::specs::Choose::choose))]
pub fn contract_status(body: &[u8], contract: u16) -> Status
    ensures { status_meaning result ≡ status_of body.now contract }
{
    let listing = GroupBody {
        body,
        group: group_fields(body),
    };
    match listing.find(contract) {
        None => Status::Unlisted,
        Some(i) if listing.is_counted(i) => Status::Counted,
        Some(_) => Status::Listed,
    }
}
