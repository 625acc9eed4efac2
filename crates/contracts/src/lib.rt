// A group's listed contracts: that they rise, and which of them are counted.
#![tactic(auto)]

mod counted;
mod listing;

pub use counted::{Status, contract_status};
pub use listing::contracts_ok;
