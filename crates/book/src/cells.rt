// Where the cells stand in the book, and how many numbers it needs.
ghost use Rattle.std.specs.Prelude.{◌≡◌, ◌+◌, ◌^◌, ◌≤◌, ◌<◌, length};
ghost use Rattle.refusals.specs.Outcome.{outcome};
ghost use Rattle.book.specs.Book.{width, size, index, cell_at, with_cell, cells, check_book};

use cell::Cell;
use lookup::Layout;
use refusals::{Cause, Refusal};
use rules::Totals;
use schedule::check;
use wire::item_or;

// How many numbers a cell has.
const WIDTH: usize = 4;

// How many numbers a firm has in one group, for 31 days.
pub const PER_FIRM_GROUP: usize = 31 * WIDTH;

// How many numbers a book needs.
pub(crate) fn book_size(l: Layout) -> usize
    ensures { result ≡ size l }
{
    PER_FIRM_GROUP * usize::from(l.groups) * usize::from(l.firms)
}

// Where a cell's numbers start: firm and group counted from 0, the day from 1.
pub(crate) fn cell_index(groups: u8, firm: u8, group: u8, day: u8) -> usize
    requires { 1 ≤ day }
    ensures { result ≡ index groups firm group day }
{
    let row = usize::from(firm) * usize::from(groups) + usize::from(group);
    (row * 31 + usize::from(day) - 1) * WIDTH
}

// The cell at a place.
pub(crate) fn cell_at(book: &[u64], at: usize) -> Cell
    requires { at < 2 ^ 60 }
    ensures { result ≡ cell_at book.now at }
{
    let totals = Totals {
        raw: item_or(book, at, 0),
        score: item_or(book, at + 1, 0),
        lots: item_or(book, at + 2, 0),
    };
    Cell {
        totals,
        edition: item_or(book, at + 3, 0),
    }
}

// A firm's cell: empty past the groups, and on a day outside 1 to 31.
pub fn cell_in(book: &[u64], groups: u8, firm: u8, group: u8, day: u8) -> Cell
    ensures { result ≡ cells groups book.now firm group day }
{
    if !((group < groups) & (1..=31).contains(&day)) {
        return Cell::default();
    }
    cell_at(book, cell_index(groups, firm, group, day))
}

// Stores a cell at a place.
pub(crate) fn store_cell(book: &mut [u64], at: usize, cell: Cell)
    requires { at + width ≤ length book.old }
    ensures { book.new ≡ with_cell book.old at cell }
{
    let t = cell.totals;
    book[at] = t.raw;
    book[at + 1] = t.score;
    book[at + 2] = t.lots;
    book[at + 3] = cell.edition;
}

// The schedule and the size of a book: refused by 1 to 8, 37 or 38, or what the schedule holds.
#[tactic(auto, unfolding(crate::specs::Book::check_book))]
pub fn check_book(schedule: &[u8], numbers: usize) -> Result<Layout, Refusal>
    ensures { outcome result ≡ check_book schedule.now numbers }
{
    let l = check(schedule)?;
    if numbers < book_size(l) {
        return Err(Refusal::from(Cause::ShortBook));
    }
    Ok(l)
}
