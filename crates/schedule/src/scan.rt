// The check of a whole schedule, record by record.
ghost use Rattle.std.specs.Prelude.{◌≡◌, ◌+◌, ◌^◌, ◌≤◌, ◌<◌, length};
ghost use Rattle.wire.specs.Choose.{choose};
ghost use Rattle.records.specs.Bodies.{length_at, body_at};
ghost use Rattle.refusals.specs.Outcome.{cause_number, outcome};
ghost use Rattle.schedule.specs.Check.{kind_of, is_due, length_ok, is_full, constants_in_range, constants_in_order, fields_ok, is_repeated};
ghost use Rattle.schedule.specs.Check.{kind_here, header_causes, body_causes, cause, with_record, after, Fine, check_of};

use contracts::contracts_ok;
use lookup::{Layout, Schedule};
use records::{
    CONSTANTS_KIND, CONSTANTS_SIZE, FIRM_KIND, FIRM_SIZE, GROUP_KIND, GROUP_LEAST, GROUP_MOST,
    HEAD_KIND, HEAD_SIZE, body_at, constants_fields, firm_fields, firm_ok, group_fields,
    group_in_range, head_fields, head_ok,
};
use refusals::{Cause, Refusal};
use wire::u16_at;

// The kinds of a schedule's records, and all others.
#[derive(Clone, Copy, Debug, PartialEq, Eq)]
enum Kind {
    Head,
    Constants,
    Group,
    Firm,
    Other,
}

// Where the check stands: the next record's offset, and what the records before it hold.
#[derive(Clone, Copy, Debug, Default, PartialEq, Eq)]
struct Cursor {
    at: usize,
    held: Layout,
}

// A record of a schedule: its kind, and its body, which starts after length and kind.
#[derive(Clone, Copy, Debug, PartialEq, Eq)]
struct Record<'a> {
    kind: Kind,
    body: &'a [u8],
}

// A schedule, and where its check stands: in bounds, with no more records before it than a schedule has.
#[derive(Clone, Copy, Debug, PartialEq, Eq)]
struct Scan<'a> {
    bytes: &'a [u8],
    place: Cursor,
    ghost fine: { Fine bytes.now place },
}

impl From<u16> for Kind {
    ghost from_gives = { λ number kind. kind ≡ kind_of number };

    #[tactic(auto, unfolding(crate::specs::Check::kind_of, wire::specs::Choose::choose))]
    fn from(number: u16) -> Kind {
        match number {
            HEAD_KIND => Kind::Head,
            CONSTANTS_KIND => Kind::Constants,
            GROUP_KIND => Kind::Group,
            FIRM_KIND => Kind::Firm,
            _ => Kind::Other,
        }
    }
}

impl Kind {
    #[tactic(auto, unfolding(crate::specs::Check::is_due))]
    fn is_due(self, place: Cursor) -> bool
        ensures { result ≡ is_due self place }
    {
        match self {
            Kind::Head => place.at == 0,
            Kind::Constants => place.at == HEAD_SIZE,
            Kind::Group => (place.at != 0) & (place.held.firms == 0),
            Kind::Firm => place.held.groups != 0,
            Kind::Other => false,
        }
    }

    #[tactic(auto, unfolding(crate::specs::Check::length_ok))]
    fn length_ok(self, len: usize) -> bool
        ensures { result ≡ length_ok self len }
    {
        match self {
            Kind::Head => len == HEAD_SIZE,
            Kind::Constants => len == CONSTANTS_SIZE,
            Kind::Group => (GROUP_LEAST..=GROUP_MOST).contains(&len) & (len % 2 == 0),
            Kind::Firm => len == FIRM_SIZE,
            Kind::Other => false,
        }
    }

    #[tactic(auto, unfolding(crate::specs::Check::is_full))]
    fn is_full(self, held: Layout) -> bool
        ensures { result ≡ is_full self held }
    {
        match self {
            Kind::Head => false,
            Kind::Constants => false,
            Kind::Group => held.groups == 32,
            Kind::Firm => held.firms == 200,
            Kind::Other => false,
        }
    }
}

impl Record<'_> {
    #[tactic(auto, unfolding(crate::specs::Check::constants_in_range))]
    fn constants_in_range(&self) -> bool
        ensures { result ≡ constants_in_range self.now.kind self.now.body.now }
    {
        match self.kind {
            Kind::Constants => constants_fields(self.body).is_in_range(),
            Kind::Head | Kind::Group | Kind::Firm | Kind::Other => true,
        }
    }

    #[tactic(auto, unfolding(crate::specs::Check::constants_in_order))]
    fn constants_in_order(&self) -> bool
        ensures { result ≡ constants_in_order self.now.kind self.now.body.now }
    {
        match self.kind {
            Kind::Constants => constants_fields(self.body).is_in_order(),
            Kind::Head | Kind::Group | Kind::Firm | Kind::Other => true,
        }
    }

    #[tactic(auto, unfolding(crate::specs::Check::fields_ok))]
    fn fields_ok(&self) -> bool
        ensures { result ≡ fields_ok self.now.kind self.now.body.now }
    {
        match self.kind {
            Kind::Head => head_ok(head_fields(self.body)),
            Kind::Constants => true,
            Kind::Group => group_in_range(group_fields(self.body)) & contracts_ok(self.body),
            Kind::Firm => firm_ok(firm_fields(self.body)),
            Kind::Other => true,
        }
    }

    #[tactic(auto, using(lookup::proofs::Laws::some_found), unfolding(crate::specs::Check::is_repeated, lookup::specs::Lookup::group_found, lookup::specs::Lookup::firm_found))]
    fn is_repeated(&self, before: &Schedule) -> bool
        ensures { result ≡ is_repeated self.now.kind before.now.bytes.now before.now.layout self.now.body.now }
    {
        match self.kind {
            Kind::Head => false,
            Kind::Constants => false,
            Kind::Group => before.find_group(group_fields(self.body).code).is_some(),
            Kind::Firm => before.find_firm(self.body).is_some(),
            Kind::Other => false,
        }
    }

    // What the schedule holds with this record, which ends at `next`.
    #[tactic(auto, unfolding(crate::specs::Check::with_record))]
    fn added_to(&self, held: Layout, next: usize) -> Layout
        requires { (next < 2 ^ 32) × (held.groups ≤ 32) × (held.firms ≤ 200) }
        ensures { result ≡ with_record self.now.kind self.now.body.now next held }
    {
        match self.kind {
            Kind::Head => {
                let head = head_fields(self.body);
                Layout {
                    month: head.month,
                    closed: head.closed,
                    first: next as u32,
                    start: next as u32,
                    ..held
                }
            }
            Kind::Constants => Layout {
                first: next as u32,
                start: next as u32,
                ..held
            },
            Kind::Group => Layout {
                groups: held.groups + 1,
                start: next as u32,
                ..held
            },
            Kind::Firm => Layout {
                firms: held.firms + 1,
                ..held
            },
            Kind::Other => held,
        }
    }
}

impl Scan<'_> {
    // The kind of the record that the check stands at.
    fn kind(&self) -> Kind
        ensures { result ≡ kind_here self.now.bytes.now self.now.place }
    {
        Kind::from(u16_at(self.bytes, self.place.at + 2))
    }

    // What its length field says.
    fn length(&self) -> u16
        ensures { result ≡ length_at self.now.bytes.now self.now.place.at }
    {
        u16_at(self.bytes, self.place.at)
    }

    // The record's kind and body.
    fn record(&self) -> Record
        ensures kind { result.kind ≡ kind_here self.now.bytes.now self.now.place }
        ensures body { result.body.now ≡ body_at self.now.bytes.now self.now.place.at }
    {
        Record {
            kind: self.kind(),
            body: body_at(self.bytes, self.place.at),
        }
    }

    // Its causes 1, 2 and 3.
    #[tactic(auto, unfolding(wire::specs::Choose::choose))]
    fn check_header(&self) -> Result<(), Cause>
        ensures { cause_number result ≡ choose (header_causes self.now.bytes.now self.now.place) 0 }
    {
        let left = self.bytes.len() - self.place.at;
        if left < 4 {
            return Err(Cause::Cut);
        }
        let kind = self.kind();
        if !kind.is_due(self.place) {
            return Err(Cause::NotDue);
        }
        let len = usize::from(self.length());
        if !kind.length_ok(len) {
            return Err(Cause::WrongLength);
        }
        if left < len {
            return Err(Cause::Cut);
        }
        Ok(())
    }

    // Its causes 7, 37, 38, 5 and 6.
    #[tactic(auto, unfolding(wire::specs::Choose::choose))]
    fn check_body(&self) -> Result<(), Cause>
        ensures { cause_number result ≡ choose (body_causes self.now.bytes.now self.now.place) 0 }
    {
        let record = self.record();
        if record.kind.is_full(self.place.held) {
            return Err(Cause::TooMany);
        }
        if !record.constants_in_range() {
            return Err(Cause::BadConstant);
        }
        if !record.constants_in_order() {
            return Err(Cause::ConstantsOutOfOrder);
        }
        if !record.fields_ok() {
            return Err(Cause::BadField);
        }
        let before = Schedule {
            bytes: self.bytes,
            layout: self.place.held,
        };
        if record.is_repeated(&before) {
            return Err(Cause::Repeated);
        }
        Ok(())
    }

    // The first cause that refuses it.
    #[tactic(auto, unfolding(crate::specs::Check::cause, wire::specs::Choose::choose))]
    fn check_record(&self) -> Result<(), Cause>
        ensures { cause_number result ≡ cause self.now.bytes.now self.now.place }
    {
        self.check_header()?;
        self.check_body()
    }

    // The place after it.
    fn next_place(&self) -> Cursor
        ensures { result ≡ after self.now.bytes.now self.now.place }
    {
        let next = self.place.at + usize::from(self.length());
        let held = self.record().added_to(self.place.held, next);
        Cursor { at: next, held }
    }
}

// Checks a whole schedule: the first cause of refusal and its record's offset, or what the schedule holds.
#[tactic(auto, using(crate::proofs::Turns::scan_end, crate::proofs::Turns::scan_refused, crate::proofs::Turns::accepted, refusals::proofs::Causes::not_0), unfolding(crate::specs::Check::ending))]
pub fn check(schedule: &[u8]) -> Result<Layout, Refusal>
    ensures { outcome result ≡ check_of schedule.now }
{
    let mut place = Cursor::default();
    while place.at < schedule.len() {
        let scan = Scan {
            bytes: schedule,
            place,
        };
        scan.check_record().map_err(|cause| Refusal {
            cause,
            offset: place.at,
        })?;
        place = scan.next_place();
    }
    if place.held.firms == 0 {
        return Err(Refusal {
            cause: Cause::Missing,
            offset: schedule.len(),
        });
    }
    Ok(place.held)
}
