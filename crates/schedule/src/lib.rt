// The check of a whole schedule.
#![tactic(auto)]

mod scan;

pub use scan::check;
