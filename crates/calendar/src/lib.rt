// Months, their days, and the days in effect.
#![tactic(auto)]

ghost use Rattle.std.specs.Prelude.{◌≡◌};
ghost use Rattle.calendar.specs.Calendar.{is_month, is_leap_february, days_in, has_day, in_effect};

// Whether a number is a month's.
pub fn is_month(m: u16) -> bool
    ensures { result ≡ is_month m }
{
    (24000..=25199).contains(&m)
}

const MONTH_DAYS: [u8; 12] = [31, 28, 31, 30, 31, 30, 31, 31, 30, 31, 30, 31];

fn is_leap_february(m: u16) -> bool
    ensures { result ≡ is_leap_february m }
{
    (m % 12 == 1) & (m / 12 % 4 == 0)
}

// The days of a month.
#[tactic(auto, unfolding(crate::specs::Calendar::days_in))]
pub fn days_in(month: u16) -> u8
    ensures { result ≡ days_in month }
{
    if is_leap_february(month) {
        return 29;
    }
    MONTH_DAYS[usize::from(month % 12)]
}

// Whether a day is one of the month's.
pub fn has_day(month: u16, day: u8) -> bool
    ensures { result ≡ has_day month day }
{
    (1..=days_in(month)).contains(&day)
}

// Whether a day, from 1, of the month is in effect, where the bits of `closed` are set for the days that are not.
#[tactic(auto, using(crate::proofs::Laws::days_most))]
pub fn in_effect(month: u16, closed: u32, day: u8) -> bool
    ensures { result ≡ in_effect month closed day }
{
    has_day(month, day) && (closed >> (day - 1)) % 2 == 0
}
