// How the schedule takes a posted record, activity or a correction: refused, outside, or counted in the cell of a firm and a group.
#![tactic(auto)]

ghost use Rattle.std.specs.Prelude.{◌≡◌, ◌≤◌, length, drop};
ghost use Rattle.wire.specs.Choose.{choose};
ghost use Rattle.records.specs.Bodies.{body_at};
ghost use Rattle.refusals.specs.Outcome.{cause_number};
ghost use Rattle.contracts.specs.Counted.{status_meaning};
ghost use Rattle.filing.specs.Causes.{due_length, form_causes, field_causes, list_causes};
ghost use Rattle.filing.specs.Filing.{contract_taken, filed_meaning, filing_by, filing_of, FoundIs};

use activity::{
    ACTIVITY_LENGTH, CONTRACT, CORRECTION_LENGTH, DAY, FIRM_CODE, GROUP_CODE, correction_fields,
    is_activity, is_correction, is_sound, minimum_quantity_impossible,
};
use calendar::{has_day, in_effect};
use contracts::{Status, contract_status};
use lookup::{GroupPlace, Schedule};
use records::body_at;
use refusals::Cause;
use wire::{byte_at, bytes_at, u16_at};

// How a record is taken that no cause refuses: outside, or counted in the cell of the firm and the group at these places.
#[derive(Clone, Copy, Debug, PartialEq, Eq)]
pub enum Filed {
    Outside,
    At { firm: u8, group: u8 },
}

// The length of a record of this one's kind.
fn due_length(record: &[u8]) -> usize
    ensures { result ≡ due_length «record».now }
{
    if is_activity(record) {
        ACTIVITY_LENGTH
    } else {
        CORRECTION_LENGTH
    }
}

// The causes 11 to 13.
#[tactic(auto, unfolding(wire::specs::Choose::choose))]
fn check_form(record: &[u8]) -> Result<(), Cause>
    ensures { cause_number result ≡ choose (form_causes «record».now) 0 }
{
    if record.len() < 4 {
        return Err(Cause::ShortRecord);
    }
    if !(is_activity(record) | is_correction(record)) {
        return Err(Cause::WrongKind);
    }
    let due = due_length(record);
    if (usize::from(u16_at(record, 0)) == due) & (record.len() == due) {
        return Ok(());
    }
    Err(Cause::WrongSize)
}

// The cause 31.
#[tactic(auto, unfolding(wire::specs::Choose::choose))]
fn check_fields(record: &[u8]) -> Result<(), Cause>
    ensures { cause_number result ≡ choose (field_causes «record».now) 0 }
{
    if is_correction(record) & !is_sound(correction_fields(record)) {
        return Err(Cause::Unsound);
    }
    Ok(())
}

// How the group whose record stands at a place takes a posted record's contract.
fn status_at(schedule: &Schedule, at: usize, record: &[u8]) -> Status
    ensures { status_meaning result ≡ contract_taken (body_at schedule.now.bytes.now at) «record».now }
{
    if is_activity(record) {
        return contract_status(body_at(schedule.bytes, at), u16_at(record, CONTRACT));
    }
    Status::Counted
}

// The causes 16, 17 and 33, and whether the record is counted, where its firm and its group were found.
#[tactic(auto, unfolding(crate::specs::Filing::filing_by, contracts::specs::Counted::status_of, wire::specs::Choose::choose))]
fn file_found(
    schedule: &Schedule,
    record: &[u8],
    firm: u8,
    group: GroupPlace,
) -> Result<Filed, Cause>
    requires { FoundIs schedule.now.bytes.now schedule.now.layout «record».now firm group }
    ensures { filed_meaning result ≡ filing_by schedule.now.bytes.now schedule.now.layout «record».now (drop 2 (list_causes schedule.now.bytes.now schedule.now.layout «record».now)) }
{
    let day = byte_at(record, DAY);
    if !has_day(schedule.layout.month, day) {
        return Err(Cause::NoSuchDay);
    }
    let counted = match status_at(schedule, group.offset, record) {
        Status::Unlisted => return Err(Cause::UnlistedContract),
        Status::Listed => false,
        Status::Counted => in_effect(schedule.layout.month, schedule.layout.closed, day),
    };
    if is_activity(record) & minimum_quantity_impossible(record) {
        return Err(Cause::ImpossibleMinimum);
    }
    if !counted {
        return Ok(Filed::Outside);
    }
    Ok(Filed::At {
        firm,
        group: group.index,
    })
}

// The causes 14 to 17 and 33, and whether the record is counted.
#[tactic(auto, unfolding(crate::specs::Filing::filing_by, lookup::specs::Lookup::firm_found, lookup::specs::Lookup::group_found, wire::specs::Choose::choose, wire::specs::Lists::joined))]
fn file_listed(schedule: &Schedule, record: &[u8]) -> Result<Filed, Cause>
    requires { 7 ≤ length «record».now }
    ensures { filed_meaning result ≡ filing_by schedule.now.bytes.now schedule.now.layout «record».now (list_causes schedule.now.bytes.now schedule.now.layout «record».now) }
{
    let firm = schedule
        .find_firm(&record[FIRM_CODE..DAY])
        .ok_or(Cause::UnlistedFirm)?;
    let group = schedule
        .find_group(bytes_at(record, GROUP_CODE))
        .ok_or(Cause::UnlistedGroup)?;
    file_found(schedule, record, firm, group)
}

// How the schedule takes a record: refused by one of 11 to 17 with 31 after 13 and 33 after 17, outside, or where its cell is.
#[tactic(auto, unfolding(crate::specs::Filing::filing_by, wire::specs::Choose::choose))]
pub fn file(schedule: &Schedule, record: &[u8]) -> Result<Filed, Cause>
    ensures { filed_meaning result ≡ filing_of schedule.now.bytes.now schedule.now.layout «record».now }
{
    check_form(record)?;
    check_fields(record)?;
    file_listed(schedule, record)
}
