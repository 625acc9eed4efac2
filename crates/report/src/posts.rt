// The posts of a run of records.
ghost use Rattle.std.specs.Prelude.{◌≡◌};
ghost use Rattle.wire.specs.Cut.{cut};
ghost use Rattle.accepted.specs.Accepted.{posted};
ghost use Rattle.book.specs.Post.{post_answer, post_book};
ghost use Rattle.text.specs.Text.{Wrote};
ghost use Rattle.report.specs.Report.{post_line, post_lines};

use book::post;
use text::{Line, Output};
use wire::Records;

// Posts one record, and writes its line where it is refused.
fn put_post(out: &mut Output, schedule: &[u8], book: &mut [u64], record: &[u8])
    ensures wrote { Wrote out.old (post_line (post_answer schedule.now book.old «record».now)) out.new }
    ensures book_after { book.new ≡ post_book schedule.now book.old «record».now }
{
    if let Err(refusal) = post(schedule, book, record) {
        out.put_line(Line::Refused(refusal.cause.number()));
    }
}

// Posts a run of records, one after the other, and writes the lines of those that are refused.
#[tactic(auto, using(crate::proofs::Posting::posting_none, crate::proofs::Posting::posting_next))]
pub(crate) fn put_posts(out: &mut Output, schedule: &[u8], book: &mut [u64], run: &[u8])
    ensures wrote { Wrote out.old (post_lines schedule.now book.old (cut run.now)) out.new }
    ensures book_after { book.new ≡ posted schedule.now book.old (cut run.now) }
{
    for record in Records::new(run) {
        put_post(out, schedule, book, record);
    }
}
