// The last twenty counted days of one firm in one group, and the sums over them (document 02, 2.8).
#![tactic(auto)]

mod days;

ghost use Rattle.std.specs.Prelude.{◌≡◌};
ghost use Rattle.refusals.specs.Outcome.{outcome_at_front};
ghost use Rattle.window.specs.Window.{empty, push_answer, window_after};

use days::has_messages;
use refusals::Cause;
use rules::Totals;

// The most days that a window holds.
pub const DAYS: usize = 20;

// `count` days are held. They stand from place `oldest` on, place 0 following the last; a day's raw count, score and lots stand at the
// same place of the three arrays. What stands at the other places means nothing, so two windows of the same days may differ. Any numbers
// may be here: `push` refuses what is no window.
#[derive(Clone, Copy, Debug, PartialEq, Eq, Default)]
pub struct Window {
    pub raw: [u64; DAYS],
    pub score: [u64; DAYS],
    pub lots: [u64; DAYS],
    pub count: u64,
    pub oldest: u64,
}

impl Window {
    // A window with no days, each of its numbers 0.
    pub fn new() -> Window
        ensures { result ≡ empty }
    {
        Window {
            raw: [0; DAYS],
            score: [0; DAYS],
            lots: [0; DAYS],
            count: 0,
            oldest: 0,
        }
    }
}

// The sums over the days held, and how many these are.
#[derive(Clone, Copy, Debug, PartialEq, Eq, Default)]
pub struct WindowSums {
    pub totals: Totals,
    pub days: u64,
}

// The window after a day, and what the day comes to.
#[derive(Clone, Copy, Debug, PartialEq, Eq)]
pub struct Pushed {
    pub window: Window,
    pub answer: Result<WindowSums, Cause>,
}

// A new day of a window. One that 36 refuses, or with a raw count of zero, leaves the window as it is. Any other is stored as the newest,
// and the oldest leaves once twenty are held. The answer is the sums over the days then held. The window given is a copy: the one
// answered is to be kept.
pub fn push(window: Window, day: Totals) -> Pushed
    ensures answer { outcome_at_front result.answer ≡ push_answer window day }
    ensures window { result.window ≡ window_after window day }
{
    let Some(before) = window.checked_sums(day) else {
        return Pushed {
            window,
            answer: Err(Cause::BadWindow),
        };
    };
    if !has_messages(day) {
        return Pushed {
            window,
            answer: Ok(before),
        };
    }
    let after = window.sums_after(before, day);
    Pushed {
        window: window.stored(day),
        answer: Ok(after),
    }
}
