// A month's report: every firm's statement as text, from a schedule and activity in one input.
#![tactic(auto)]

mod firms;
mod posts;

ghost use Rattle.std.specs.Prelude.{◌≡◌};
ghost use Rattle.wire.specs.Cut.{cut};
ghost use Rattle.text.specs.Text.{Wrote};
ghost use Rattle.report.specs.Report.{month_lines, report};
ghost use Rattle.report.specs.Answer.{ReportIs};

use book::{PER_FIRM_GROUP, check_book, open};
use firms::put_firms;
use input::{INPUT, schedule_end};
use lookup::Schedule;
use posts::put_posts;
use text::{Line, Output};

// The bytes of an output that has room for every report.
pub const OUTPUT: usize = 524_288;

// The firm-groups of the book, and its numbers.
const FIRM_GROUPS: usize = 66;

const BOOK: usize = FIRM_GROUPS * PER_FIRM_GROUP;

// The text had no room: so many bytes of its front were written.
#[derive(Clone, Copy, Debug, PartialEq, Eq)]
pub struct Cut {
    pub bytes: usize,
}

// Writes the report of a month whose schedule and book are good: heading, refused records, each firm's violations and totals.
fn put_month(out: &mut Output, schedule: &Schedule, run: &[u8])
    ensures { Wrote out.old (month_lines schedule.now.bytes.now schedule.now.layout (cut run.now)) out.new }
{
    let mut book = [0; BOOK];
    // Its answer says nothing new: `check_book` took this schedule and a book of this size.
    let _ = open(schedule.bytes, &mut book);
    out.put_line(Line::Heading(schedule.layout.month));
    put_posts(out, schedule.bytes, &mut book, run);
    put_firms(out, schedule, &book);
}

// Writes what an input comes to.
#[tactic(auto, using(input::proofs::Cuts::schedule_first, input::proofs::Cuts::schedule_most, input::proofs::Cuts::activity_rest), unfolding(crate::specs::Report::report))]
fn put_report(out: &mut Output, input: &[u8])
    ensures { Wrote out.old (report input.now) out.new }
{
    if INPUT < input.len() {
        return out.put_line(Line::TooLong);
    }
    let (bytes, run) = input.split_at(schedule_end(input));
    match check_book(bytes, BOOK) {
        Err(refusal) => out.put_line(Line::RefusedAt {
            number: refusal.cause.number(),
            offset: refusal.offset,
        }),
        Ok(layout) => put_month(out, &Schedule { bytes, layout }, run),
    }
}

// Writes what an input comes to over the front of the output, as much of it as there is room for, and answers how many bytes that are.
#[tactic(auto, using(crate::proofs::Answers::is_whole, crate::proofs::Answers::is_cut))]
pub fn report(input: &[u8], out: &mut [u8]) -> Result<usize, Cut>
    ensures { ReportIs input.now out.old result out.new }
{
    let mut output = Output::new(out);
    put_report(&mut output, input);
    if output.whole {
        Ok(output.at)
    } else {
        Err(Cut { bytes: output.at })
    }
}
