// The lines of a report.
ghost use Rattle.std.specs.Prelude.{◌≡◌};
ghost use Rattle.text.specs.Text.{Wrote};
ghost use Rattle.text.specs.Lines.{refused_at, line_text, mark_word, violation_line, counts, totals_line};

use crate::Output;
use statement::{
    LINE_DAY, LINE_DOLLARS, LINE_GROUP, LINE_MARK, TOTALS_AUTOMATIC, TOTALS_BILLED, TOTALS_DOLLARS,
    TOTALS_GRANTED, TOTALS_GROUPING, TOTALS_MONTHLY, TOTALS_VIOLATIONS,
};
use wire::{byte_at, bytes_at, u16_at, u32_at};

// A line other than a violation or totals: an input that is too long, the month's heading, a refused record, a refused schedule or book.
#[derive(Clone, Copy, Debug, PartialEq, Eq)]
pub enum Line {
    TooLong,
    Heading(u16),
    Refused(u8),
    RefusedAt { number: u8, offset: usize },
}

// The word of a mark.
#[tactic(auto, unfolding(crate::specs::Lines::mark_word, wire::specs::Choose::choose))]
fn mark_word(mark: u8) -> &'static [u8]
    ensures { result.now ≡ mark_word mark }
{
    match mark {
        1 => b"severe",
        2 => b"billed",
        3 => b"monthly",
        4 => b"automatic",
        _ => b"granted",
    }
}

impl Output<'_> {
    // Writes the line of a refused schedule or book.
    fn put_refused_at(&mut self, number: u8, offset: usize)
        ensures { Wrote self.old (refused_at number offset) self.new }
    {
        self.put_number(b"refused ", u64::from(number), b" at ");
        self.put_decimal(offset as u64);
        self.put(b"\n");
    }

    // Writes a line other than a violation or totals.
    #[tactic(auto, unfolding(crate::specs::Lines::heading, crate::specs::Lines::refused_line))]
    pub fn put_line(&mut self, line: Line)
        ensures { Wrote self.old (line_text line) self.new }
    {
        match line {
            Line::TooLong => self.put(b"too long\n"),
            Line::Heading(month) => self.put_number(b"MPS ", u64::from(month), b"\n"),
            Line::Refused(number) => self.put_number(b"refused ", u64::from(number), b"\n"),
            Line::RefusedAt { number, offset } => self.put_refused_at(number, offset),
        }
    }

    // Writes the line of a violation, from the statement's line.
    pub fn put_violation(&mut self, code: &[u8], line: &[u8])
        ensures { Wrote self.old (violation_line code.now line.now) self.new }
    {
        let group: [u8; 2] = bytes_at(line, LINE_GROUP);
        self.put(code);
        self.put_field(u64::from(byte_at(line, LINE_DAY)));
        self.put(b" ");
        self.put(&group);
        self.put(b" ");
        self.put(mark_word(byte_at(line, LINE_MARK)));
        self.put_field(u64::from(u32_at(line, LINE_DOLLARS)));
        self.put(b"\n");
    }

    // Writes the counts and the dollars of a totals record.
    fn put_counts(&mut self, totals: &[u8])
        ensures { Wrote self.old (counts totals.now) self.new }
    {
        self.put_field(u64::from(u16_at(totals, TOTALS_VIOLATIONS)));
        self.put_field(u64::from(u16_at(totals, TOTALS_MONTHLY)));
        self.put_field(u64::from(u16_at(totals, TOTALS_AUTOMATIC)));
        self.put_field(u64::from(u16_at(totals, TOTALS_GRANTED)));
        self.put_field(u64::from(u16_at(totals, TOTALS_BILLED)));
        self.put_field(u64::from(u32_at(totals, TOTALS_DOLLARS)));
    }

    // Writes the line of a totals record.
    pub fn put_totals(&mut self, code: &[u8], totals: &[u8])
        ensures { Wrote self.old (totals_line code.now totals.now) self.new }
    {
        self.put(code);
        self.put(b" grouping");
        self.put_field(u64::from(byte_at(totals, TOTALS_GROUPING)));
        self.put(b":");
        self.put_counts(totals);
        self.put(b"\n");
    }
}
