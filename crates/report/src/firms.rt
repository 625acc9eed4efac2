// The firms' statements as text.
ghost use Rattle.std.specs.Prelude.{◌≡◌, ◌*◌, ◌/◌, ◌≤◌, length, drop};
ghost use Rattle.wire.specs.Lists.{joined};
ghost use Rattle.statement.specs.Layout.{line_size, both_totals};
ghost use Rattle.text.specs.Text.{Wrote};
ghost use Rattle.text.specs.Lines.{violation_line};
ghost use Rattle.report.specs.Report.{statement_lines, statement_of};

use lookup::Schedule;
use statement::{BOTH_TOTALS, LARGEST, LINE, TOTALS, statement};
use text::{Line, Output};

// Writes the lines of a statement's violations.
#[tactic(auto, using(crate::proofs::Violations::showing_none, crate::proofs::Violations::showing_next))]
fn put_violations(out: &mut Output, code: &[u8], violations: &[u8])
    ensures { Wrote out.old (joined (length violations.now / line_size) (λ i. violation_line code.now (drop (line_size * i) violations.now))) out.new }
{
    for line in violations.chunks_exact(LINE) {
        out.put_violation(code, line);
    }
}

// Writes a statement as lines.
fn put_statement(out: &mut Output, code: &[u8], statement: &[u8])
    requires { both_totals ≤ length statement.now }
    ensures { Wrote out.old (statement_lines code.now statement.now (length statement.now)) out.new }
{
    let (violations, totals) = statement.split_at(statement.len() - BOTH_TOTALS);
    let (first, second) = totals.split_at(TOTALS);
    put_violations(out, code, violations);
    out.put_totals(code, first);
    out.put_totals(code, second);
}

// Writes the lines of a firm, without grants. In a report its statement is never refused (report_laws).
fn put_firm(out: &mut Output, schedule: &Schedule, book: &[u64], firm: u8)
    ensures { Wrote out.old (statement_of schedule.now.bytes.now schedule.now.layout book.now firm) out.new }
{
    let code = schedule.firm(firm).code;
    let mut records = [0; LARGEST];
    match statement(schedule.bytes, book, &code, &[], &mut records) {
        Err(refusal) => out.put_line(Line::Refused(refusal.cause.number())),
        Ok(bytes) => put_statement(out, &code, &records[..bytes]),
    }
}

// Writes the lines of every firm.
#[tactic(auto, using(text::proofs::Writing::wrote_first))]
pub(crate) fn put_firms(out: &mut Output, schedule: &Schedule, book: &[u64])
    ensures { Wrote out.old (joined schedule.now.layout.firms (statement_of schedule.now.bytes.now schedule.now.layout book.now)) out.new }
{
    for firm in 0..schedule.layout.firms {
        put_firm(out, schedule, book, firm);
    }
}
