// Opening a book.
ghost use Rattle.refusals.specs.Outcome.{outcome};
ghost use Rattle.book.specs.Book.{OpenIs};

use crate::cells::{book_size, check_book};
use refusals::Refusal;
use wire::fill;

// Opens a book for the month of a schedule: every number of every cell is zero, and what the book has beyond them stays.
pub fn open(schedule: &[u8], book: &mut [u64]) -> Result<(), Refusal>
    ensures { OpenIs schedule.now book.old (outcome result) book.new }
{
    let l = check_book(schedule, book.len())?;
    fill(book, book_size(l), 0);
    Ok(())
}
