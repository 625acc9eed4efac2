// A group's listed contracts.
ghost use Rattle.std.specs.Prelude.{◌≡◌, ◌<◌, ◌||◌, not, leb};
ghost use Rattle.calendar.specs.Calendar.{is_month};
ghost use Rattle.contracts.specs.Listing.{listed, contract, contracts_ok};

use calendar::is_month;
use wire::u16_at;

// Where the listed contracts start in a group's body.
const CONTRACTS: usize = 12;

// How many contracts a group's body lists.
#[tactic(auto, unfolding(crate::specs::Listing::listed))]
pub(crate) fn listed_in(body: &[u8]) -> usize
    ensures { result ≡ listed body.now }
{
    body.len().saturating_sub(CONTRACTS) / 2
}

// The month number of listed contract i.
#[tactic(auto, unfolding(crate::specs::Listing::listed, crate::specs::Listing::contract))]
pub(crate) fn contract_at(body: &[u8], i: usize) -> u16
    requires { i < listed body.now }
    ensures { result ≡ contract body.now i }
{
    u16_at(body, CONTRACTS + 2 * i)
}

// A listed contract is no month number, or not above the one before it.
fn is_bad(m: u16, last: u16) -> bool
    ensures { result ≡ (not (is_month m) || leb m last) }
{
    !is_month(m) || m <= last
}

// The listed contracts are month numbers, strictly rising.
pub fn contracts_ok(body: &[u8]) -> bool
    ensures { result ≡ contracts_ok body.now }
{
    let mut last = 0;
    for i in 0..listed_in(body) {
        let m = contract_at(body, i);
        if is_bad(m, last) {
            return false;
        }
        last = m;
    }
    true
}
