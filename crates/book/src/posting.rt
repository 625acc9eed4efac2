// Posting a record to the book.
ghost use Rattle.std.specs.Prelude.{◌≡◌, ◌+◌, ◌≤◌, length};
ghost use Rattle.refusals.specs.Outcome.{good, outcome, outcome_at_front};
ghost use Rattle.book.specs.Book.{width, check_book};
ghost use Rattle.book.specs.Post.{EnterIs, PostIs};

use crate::cells::{cell_at, cell_index, check_book, store_cell};
use activity::DAY;
use cell::entry_of;
use filing::{Filed, file};
use lookup::Schedule;
use refusals::{Cause, Refusal};
use wire::byte_at;

// What a post does that isn't refused: nothing, or the record is taken into its cell.
#[derive(Clone, Copy, Debug, PartialEq, Eq)]
pub enum Effect {
    Outside,
    Counted,
}

// Enters a counted record into the cell at a place, unless the cell's causes refuse it.
fn enter(book: &mut [u64], at: usize, record: &[u8]) -> Result<Effect, Cause>
    requires { at + width ≤ length book.old }
    ensures { EnterIs book.old at «record».now (outcome_at_front result) book.new }
{
    let cell = entry_of(cell_at(book, at), record)?;
    store_cell(book, at, cell);
    Ok(Effect::Counted)
}

// A post to a book that has the numbers that the schedule asks for.
#[tactic(auto, unfolding(crate::specs::Post::taking, filing::specs::Filing::filing_by))]
fn post_checked(schedule: &Schedule, book: &mut [u64], record: &[u8]) -> Result<Effect, Cause>
    requires { check_book schedule.now.bytes.now (length book.old) ≡ good schedule.now.layout }
    ensures { PostIs schedule.now.bytes.now book.old «record».now (outcome_at_front result) book.new }
{
    match file(schedule, record)? {
        Filed::Outside => Ok(Effect::Outside),
        Filed::At { firm, group } => {
            let at = cell_index(schedule.layout.groups, firm, group, byte_at(record, DAY));
            enter(book, at, record)
        }
    }
}

// Posts one record: activity adds to its cell, a correction replaces it; or the record is outside, or refused. The book changes only where
// the record is counted.
pub fn post(schedule: &[u8], book: &mut [u64], record: &[u8]) -> Result<Effect, Refusal>
    ensures { PostIs schedule.now book.old «record».now (outcome result) book.new }
{
    let layout = check_book(schedule, book.len())?;
    let schedule = Schedule {
        bytes: schedule,
        layout,
    };
    Ok(post_checked(&schedule, book, record)?)
}
