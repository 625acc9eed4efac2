// The book of posts: opening it, and posting a record to it.
#![tactic(auto)]

mod cells;
mod opening;
mod posting;

pub use cells::{PER_FIRM_GROUP, cell_in, check_book};
pub use opening::open;
pub use posting::{Effect, post};
