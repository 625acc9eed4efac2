// A firm's month with its grants (document 02, 2.6): refused by 1 to 8, 21, 22, 34, 35, 37 or 38, or its verdicts, exemptions and marks.
#![tactic(auto)]

mod giving;
mod list;

ghost use Rattle.std.specs.Prelude.{◌≡◌};
ghost use Rattle.grants.specs.Month.{GrantedIs};

pub use list::GRANT;
use list::Grants;
use lookup::Schedule;
use month::{Month, firm_month};
use refusals::Refusal;

// The month of the firm with a code, a slice of any length, and with the grants of a list, of any length too.
pub fn granted_month(
    schedule: &[u8],
    book: &[u64],
    firm: &[u8],
    grants: &[u8],
) -> Result<Month, Refusal>
    ensures { GrantedIs schedule.now book.now firm.now grants.now result }
{
    let mut month = firm_month(schedule, book, firm)?;
    let layout = month.layout;
    let grants = Grants {
        schedule: Schedule {
            bytes: schedule,
            layout,
        },
        bytes: grants,
    };
    grants.check()?;
    month.marks = grants.give(firm, &month.marks);
    Ok(month)
}
