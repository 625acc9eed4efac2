// The days that a window holds: where they stand, their sums, and a day more.
ghost use Rattle.std.specs.Prelude.{◌≡◌, ◌≤◌, ◌<◌, true, cond, map, Some, None};
ghost use Rattle.wire.specs.Choose.{all};
ghost use Rattle.rules.specs.Verdict.{fits};
ghost use Rattle.window.specs.Window.{most_days, place_of, held_day, summed, has_messages, held, is_full, stored};
ghost use Rattle.window.specs.Parts.{is_placed, Placed, Taken, Within, Holds, with_day, without_day, checked_sums};

use crate::{DAYS, Window, WindowSums};
use rules::{Totals, fits};

// A day with a raw count above zero.
pub(crate) fn has_messages(t: Totals) -> bool
    ensures { result ≡ has_messages t }
{
    0 < t.raw
}

impl WindowSums {
    // The sums with a day more.
    fn with_day(self, t: Totals) -> WindowSums
        requires within { Within most_days self }
        requires day { fits 1 t ≡ true }
        ensures { result ≡ with_day self t }
    {
        WindowSums {
            totals: Totals {
                raw: self.totals.raw + t.raw,
                score: self.totals.score + t.score,
                lots: self.totals.lots + t.lots,
            },
            days: self.days + 1,
        }
    }

    // The sums with a day less.
    fn without_day(self, t: Totals) -> WindowSums
        requires { Holds self t }
        ensures { result ≡ without_day self t }
    {
        WindowSums {
            totals: Totals {
                raw: self.totals.raw - t.raw,
                score: self.totals.score - t.score,
                lots: self.totals.lots - t.lots,
            },
            days: self.days - 1,
        }
    }
}

impl Window {
    // It holds no more days than it has places, and the oldest's place is one of them.
    fn is_placed(&self) -> bool
        ensures { result ≡ is_placed self.now }
    {
        (self.count <= DAYS as u64) & (self.oldest < DAYS as u64)
    }

    // Twenty days are held.
    fn is_full(&self) -> bool
        ensures { result ≡ is_full self.now }
    {
        self.count == DAYS as u64
    }

    // The place of day i, from 0 at the oldest.
    fn place_of(&self, i: u64) -> usize
        requires { (self.now.oldest < most_days) × (i ≤ most_days) }
        ensures { result ≡ place_of self.now i }
    {
        (self.oldest + i) as usize % DAYS
    }

    // The day that stands at the place of day i.
    fn day(&self, i: u64) -> Totals
        requires { (self.now.oldest < most_days) × (i ≤ most_days) }
        ensures { result ≡ held_day self.now i }
    {
        let place = self.place_of(i);
        Totals {
            raw: self.raw[place],
            score: self.score[place],
            lots: self.lots[place],
        }
    }

    // Day i, unless a total of it is above the limit.
    fn checked_day(&self, i: u64) -> Option<Totals>
        requires { (self.now.oldest < most_days) × (i < most_days) }
        ensures { result ≡ cond (fits 1 (held_day self.now i)) (Some (held_day self.now i)) None }
    {
        let t = self.day(i);
        if !fits(1, t) {
            return None;
        }
        Some(t)
    }

    // The sums over the days held, unless a total of one is above the limit.
    fn held_sums(&self) -> Option<WindowSums>
        requires { Placed self.now }
        ensures { result ≡ cond (all (map (fits 1) (held self.now))) (Some (summed (held self.now))) None }
    {
        let mut sums = WindowSums::default();
        for i in 0..self.count {
            sums = sums.with_day(self.checked_day(i)?);
        }
        Some(sums)
    }

    // The sums over the days held, unless 36 refuses the new day.
    pub(crate) fn checked_sums(&self, t: Totals) -> Option<WindowSums>
        ensures { result ≡ checked_sums self.now t }
    {
        if !(fits(1, t) & self.is_placed()) {
            return None;
        }
        self.held_sums()
    }

    // The window with a new day at the place after the newest's, which is the oldest's once twenty are held.
    pub(crate) fn stored(mut self, t: Totals) -> Window
        requires { Placed self }
        ensures { result ≡ stored self t }
    {
        let place = self.place_of(self.count);
        self.raw[place] = t.raw;
        self.score[place] = t.score;
        self.lots[place] = t.lots;
        if self.is_full() {
            self.oldest = self.place_of(1) as u64;
        } else {
            self.count += 1;
        }
        self
    }

    // The sums over the days held once a new day is stored, worked out from the sums before it, so that the days are not passed over again.
    pub(crate) fn sums_after(&self, sums: WindowSums, t: Totals) -> WindowSums
        requires before { sums ≡ summed (held self.now) }
        requires taken { Taken self.now t }
        ensures { result ≡ summed (held (stored self.now t)) }
    {
        if self.is_full() {
            return sums.without_day(self.day(0)).with_day(t);
        }
        sums.with_day(t)
    }
}
