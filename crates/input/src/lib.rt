// The input of mep-statement: a schedule, then activity. Where the one ends and the other begins.
#![tactic(auto)]

ghost use Rattle.std.specs.Prelude.{◌≡◌, length};
ghost use Rattle.input.specs.Input.{begins_activity, schedule_of};

use activity::{is_activity, is_correction};
use wire::Records;

// The most bytes of an input that is taken.
pub const INPUT: usize = 65_536;

// The record has four bytes or more, and is activity or a correction by its kind.
fn begins_activity(record: &[u8]) -> bool
    ensures { result ≡ begins_activity «record».now }
{
    (4 <= record.len()) & (is_activity(record) | is_correction(record))
}

// The offset of the first record of activity or correction, or the input's length.
#[tactic(auto, using(crate::proofs::Cuts::schedule_within), unfolding(crate::specs::Input::bytes_before))]
pub fn schedule_end(input: &[u8]) -> usize
    ensures { result ≡ length (schedule_of input.now) }
{
    let mut end = 0;
    for record in Records::new(input) {
        if begins_activity(record) {
            break;
        }
        end += record.len();
    }
    end
}
