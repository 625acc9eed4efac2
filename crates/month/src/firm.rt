// A firm's numbers in the book of a schedule.
ghost use Rattle.std.specs.Prelude.{◌≡◌};
ghost use Rattle.lookup.specs.InForce.{rules_of};
ghost use Rattle.book.specs.Book.{cells};
ghost use Rattle.month.specs.Month.{starts_of};
ghost use Rattle.month.specs.Parts.{Sound};

use lookup::Schedule;
use rules::{GROUPS, Rules};

// A schedule that was checked, with where its groups stand and the rules in force, and a firm whose numbers in the book are within the
// limit.
#[derive(Drop)]
pub(crate) struct FirmBook<'a> {
    pub schedule: Schedule<'a>,
    pub starts: [usize; GROUPS],
    pub rules: Rules,
    pub book: &'a [u64],
    pub firm: u8,
    ghost in_force: { rules ≡ rules_of schedule.bytes.now },
    ghost stand: { starts ≡ starts_of schedule.bytes.now schedule.layout },
    ghost sound: { Sound schedule.bytes.now schedule.layout (cells schedule.layout.groups book.now firm) },
}
