// A cell, and what a counted record makes of it: activity adds to its totals, a correction replaces it.
#![tactic(auto)]

ghost use Rattle.std.specs.Prelude.{◌≡◌, ◌+◌, leb, cond, Ok, Err};
ghost use Rattle.rules.specs.Verdict.{limit};
ghost use Rattle.refusals.specs.Outcome.{outcome_at_front};
ghost use Rattle.refusals.specs.declared.Cause.TheVariants as cause;
ghost use Rattle.cell.specs.Entry.{entry_of};
ghost use Rattle.cell.specs.Parts.{addition, replacement};

use activity::{Correction, correction_fields, is_activity, totals_of};
use refusals::Cause;
use rules::{LIMIT, Totals};

// What is kept of one firm, one group and one day: its totals, and the edition of the correction that set them, 0 where none did.
#[derive(Clone, Copy, Debug, Default, PartialEq, Eq)]
pub struct Cell {
    pub totals: Totals,
    pub edition: u64,
}

// A total that grew by so much, unless that is above the limit.
fn grown_total(held: u64, more: u64) -> Result<u64, Cause>
    ensures { result ≡ cond (leb (held + more) limit) (Ok (held + more)) (Err cause.AboveLimit) }
{
    let total = held.saturating_add(more);
    if LIMIT < total {
        return Err(Cause::AboveLimit);
    }
    Ok(total)
}

impl Cell {
    // Adds to the cell, unless it was corrected or a total would be above the limit.
    #[tactic(auto, unfolding(wire::specs::Choose::choose, wire::specs::Choose::all))]
    fn add(self, more: Totals) -> Result<Cell, Cause>
        ensures { outcome_at_front result ≡ addition self more }
    {
        if 0 < self.edition {
            return Err(Cause::Superseded);
        }
        let held = self.totals;
        let totals = Totals {
            raw: grown_total(held.raw, more.raw)?,
            score: grown_total(held.score, more.score)?,
            lots: grown_total(held.lots, more.lots)?,
        };
        Ok(Cell { totals, ..self })
    }

    // Replaces the cell, unless its edition is as high or higher.
    #[tactic(auto, unfolding(wire::specs::Choose::choose))]
    fn correct(self, new: Correction) -> Result<Cell, Cause>
        ensures { outcome_at_front result ≡ replacement self new }
    {
        let edition = u64::from(new.edition);
        if edition <= self.edition {
            return Err(Cause::Superseded);
        }
        let totals = new.totals;
        Ok(Cell { totals, edition })
    }
}

// What a counted record makes of its cell: refused by 32 or 18, or the cell after it.
#[tactic(auto, unfolding(wire::specs::Choose::choose))]
pub fn entry_of(cell: Cell, record: &[u8]) -> Result<Cell, Cause>
    ensures { outcome_at_front result ≡ entry_of cell «record».now }
{
    if is_activity(record) {
        return cell.add(totals_of(record));
    }
    cell.correct(correction_fields(record))
}
