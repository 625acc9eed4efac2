// Why a call is refused: the causes with their numbers, and a refusal with its offset.
#![tactic(auto)]

ghost use Rattle.std.specs.Prelude.{◌≡◌, Some};
ghost use Rattle.refusals.specs.Outcome.{number_of, refusal_text, at_front};

use std::fmt;

// The causes of refusal of all calls but the verdicts, by their numbers.
#[derive(Clone, Copy, Debug, PartialEq, Eq)]
pub enum Cause {
    // Of a schedule's record: one to three bytes left, or its length past the end.
    Cut,
    // A kind that isn't due here.
    NotDue,
    // The length is wrong for the kind.
    WrongLength,
    // Head, group or firm missing at the end.
    Missing,
    // A field against its range, letters, zero bits or rising order.
    BadField,
    // The code is repeated in its kind.
    Repeated,
    // Too many groups or firms.
    TooMany,
    // The book has too few numbers.
    ShortBook,
    // Of a posted record: it has under four bytes.
    ShortRecord,
    // Its kind is neither activity's nor a correction's.
    WrongKind,
    // Its length field or the slice is not its kind's.
    WrongSize,
    // The schedule doesn't list its firm or its group, its month has no such day, or its group doesn't list its contract. Of a reason: its
    // group, or its day.
    UnlistedFirm,
    UnlistedGroup,
    NoSuchDay,
    UnlistedContract,
    // A total of its cell would be above the limit.
    AboveLimit,
    // The statement's firm, or the reason's, is unlisted.
    NoSuchFirm,
    // A number of that firm is above the limit.
    Excess,
    // The output is too short for the statement.
    ShortOutput,
    // A correction's zero field isn't zero, or its edition is 0.
    Unsound,
    // The edition isn't above the cell's, or the cell was corrected.
    Superseded,
    // Activity has more minimum-quantity orders than new orders and FAK/FOK orders together.
    ImpossibleMinimum,
    // Of a statement's grant: it is cut, or has the wrong kind or length.
    MalformedGrant,
    // Its firm or group is unlisted, or its day is not in the month.
    NoSuchCell,
    // Of a window and its new day: a total of the new day or of a day held is above the limit, the window holds more than twenty days, or
    // its oldest's place is above 19.
    BadWindow,
    // Of a schedule's constants: one is outside its range.
    BadConstant,
    // The edges don't rise strictly, or a factor is above the one before it.
    ConstantsOutOfOrder,
}

impl Cause {
    // The cause's number.
    pub fn number(self) -> u8
        ensures { result ≡ number_of self }
    {
        match self {
            Cause::Cut => 1,
            Cause::NotDue => 2,
            Cause::WrongLength => 3,
            Cause::Missing => 4,
            Cause::BadField => 5,
            Cause::Repeated => 6,
            Cause::TooMany => 7,
            Cause::ShortBook => 8,
            Cause::ShortRecord => 11,
            Cause::WrongKind => 12,
            Cause::WrongSize => 13,
            Cause::UnlistedFirm => 14,
            Cause::UnlistedGroup => 15,
            Cause::NoSuchDay => 16,
            Cause::UnlistedContract => 17,
            Cause::AboveLimit => 18,
            Cause::NoSuchFirm => 21,
            Cause::Excess => 22,
            Cause::ShortOutput => 23,
            Cause::Unsound => 31,
            Cause::Superseded => 32,
            Cause::ImpossibleMinimum => 33,
            Cause::MalformedGrant => 34,
            Cause::NoSuchCell => 35,
            Cause::BadWindow => 36,
            Cause::BadConstant => 37,
            Cause::ConstantsOutOfOrder => 38,
        }
    }
}

// A cause, and an offset in the schedule: that of the record that it is about, the schedule's length where something is missing at the
// end, and 0 of a cause that is about no record of the schedule.
#[derive(Clone, Copy, Debug, PartialEq, Eq)]
pub struct Refusal {
    pub cause: Cause,
    pub offset: usize,
}

impl From<Cause> for Refusal {
    ghost from_gives = { λ c r. r ≡ at_front c };

    fn from(cause: Cause) -> Refusal {
        Refusal { cause, offset: 0 }
    }
}

impl fmt::Display for Refusal {
    ghost output = { λ r. Some (refusal_text r) };

    fn fmt<W: fmt::Write>(&self, f: &mut fmt::Formatter<W>) -> fmt::Result {
        let number = self.cause.number();
        let offset = self.offset;
        write!(f, "refused {number} at {offset}")
    }
}
