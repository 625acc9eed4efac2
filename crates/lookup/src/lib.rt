// What a schedule holds, where its groups and firms stand, which of them has a code, and the Program's constants in force.
#![tactic(auto)]

ghost use Rattle.std.specs.Prelude.{◌≡◌};
ghost use Rattle.records.specs.Bodies.{rest_at, body_at};
ghost use Rattle.records.specs.Fields.{group_fields, firm_fields};
ghost use Rattle.lookup.specs.InForce.{has_constants, rules_of};
ghost use Rattle.lookup.specs.Lookup.{firm_start, group_has, group_found, firm_found};

use records::{
    CONSTANTS_KIND, FIRM_SIZE, Firm, Group, HEAD_SIZE, body_at, constants_fields, firm_fields,
    group_fields, has_code, rest_at,
};
use rules::{Rules, version96};
use wire::u16_at;

// What a good schedule holds, and where: the month's number, the days that are not in effect, the offset of the first group and how many
// there are, the offset of the first firm and how many there are.
#[derive(Clone, Copy, Debug, Default, PartialEq, Eq)]
pub struct Layout {
    pub month: u16,
    pub closed: u32,
    pub first: u32,
    pub groups: u8,
    pub start: u32,
    pub firms: u8,
}

// A schedule's bytes, with what they hold.
#[derive(Clone, Copy, Debug, PartialEq, Eq)]
pub struct Schedule<'a> {
    pub bytes: &'a [u8],
    pub layout: Layout,
}

// Where a group stands: its place among the groups, and its record's offset.
#[derive(Clone, Copy, Debug, PartialEq, Eq)]
pub struct GroupPlace {
    pub index: u8,
    pub offset: usize,
}

impl<'a> Schedule<'a> {
    // Whether the record at a place has a group's code.
    fn group_has(&self, at: usize, code: [u8; 2]) -> bool
        ensures { result ≡ group_has self.now.bytes.now at code }
    {
        group_fields(rest_at(self.bytes, at)).code == code
    }

    // The group with a code.
    #[tactic(auto, using(wire::proofs::Choose::seek_hit, wire::proofs::Choose::seek_end), unfolding(crate::specs::Lookup::group_found, crate::specs::Lookup::group_listed, crate::specs::Lookup::group_is))]
    pub fn find_group(&self, code: [u8; 2]) -> Option<GroupPlace>
        ensures { result ≡ group_found self.now.bytes.now self.now.layout code }
    {
        let mut at = self.layout.first as usize;
        for i in 0..self.layout.groups {
            if self.group_has(at, code) {
                return Some(GroupPlace {
                    index: i,
                    offset: at,
                });
            }
            at += usize::from(u16_at(self.bytes, at));
        }
        None
    }

    // The fields of firm i, whatever its record's length says.
    pub fn firm(&self, i: u8) -> Firm
        ensures { result ≡ firm_fields (rest_at self.now.bytes.now (firm_start self.now.layout.start i)) }
    {
        let at = self.layout.start as usize + FIRM_SIZE * usize::from(i);
        firm_fields(rest_at(self.bytes, at))
    }

    // The place among the firms of the one with a code, a slice of any length.
    pub fn find_firm(&self, code: &[u8]) -> Option<u8>
        ensures { result ≡ firm_found self.now.bytes.now self.now.layout code.now }
    {
        (0..self.layout.firms).find(|&i| has_code(self.firm(i), code))
    }
}

// The fields of the group whose record stands at a place.
pub fn group_at(schedule: &[u8], at: usize) -> Group
    ensures { result ≡ group_fields (body_at schedule.now at) }
{
    group_fields(body_at(schedule, at))
}

// A record of constants stands directly after the head.
fn has_constants(schedule: &[u8]) -> bool
    ensures { result ≡ has_constants schedule.now }
{
    u16_at(schedule, HEAD_SIZE + 2) == CONSTANTS_KIND
}

// The Program's constants that hold for a schedule's month: its own, or else version 9.6's.
#[tactic(auto, unfolding(crate::specs::InForce::rules_of))]
pub fn rules_of(schedule: &[u8]) -> Rules
    ensures { result ≡ rules_of schedule.now }
{
    if has_constants(schedule) {
        constants_fields(body_at(schedule, HEAD_SIZE))
    } else {
        version96()
    }
}
