// What the commands of a script do.
ghost use Rattle.std.specs.Prelude.{◌≡◌, length};
ghost use Rattle.statement.specs.Layout.{largest};

use crate::answers::{
    effect_line, print_answer, print_digest, print_pushed, print_reason, print_stated,
    print_verdict,
};
use crate::commands::Command;
use crate::stop::Stop;
use book::{open, post};
use reason::reason;
use rules::{Totals, mep_verdict};
use statement::{LARGEST, statement};
use window::{Window, push};

// What a number of the book and a byte of an output hold before any call, so that what a call leaves alone can be seen.
const UNTOUCHED: u64 = 7;

const UNTOUCHED_BYTE: u8 = 165;

// An output before its call, of as many bytes as the largest statement has.
fn fresh_output() -> [u8; LARGEST]
    ensures { largest ≡ length result }
{
    [UNTOUCHED_BYTE; LARGEST]
}

// Sets one number of the book or of a list of the window.
fn set_number(numbers: &mut [u64], place: usize, number: u64) -> Result<(), Stop> {
    *numbers.get_mut(place).ok_or(Stop::NoSuchNumber)? = number;
    Ok(())
}

// The schedule, the grants and the window of the calls; the numbers for a book, and how many of them the book has.
#[derive(Drop)]
pub(crate) struct Runner<'s, 'b> {
    schedule: &'s [u8],
    grants: &'s [u8],
    window: Window,
    book: &'b mut [u64],
    numbers: usize,
}

impl<'s, 'b> Runner<'s, 'b> {
    // A runner with no schedule and no grants yet, with no day in its window and no number in its book.
    pub(crate) fn new(book: &'b mut [u64]) -> Self {
        Runner {
            schedule: &[],
            grants: &[],
            window: Window::new(),
            book,
            numbers: 0,
        }
    }

    // The numbers that the book has.
    fn held(&mut self) -> &mut [u64] {
        let held = self.numbers.min(self.book.len());
        &mut self.book[..held]
    }

    fn make_book(&mut self, numbers: usize) -> Result<(), Stop> {
        self.book
            .get_mut(..numbers)
            .ok_or(Stop::BookTooLarge)?
            .fill(UNTOUCHED);
        self.numbers = numbers;
        Ok(())
    }

    // An output has no more bytes than the largest statement.
    fn print_statement(&mut self, rt: &impl Print, firm: &[u8], size: usize) -> Result<(), Stop> {
        let mut output = fresh_output();
        let out = output.get_mut(..size).ok_or(Stop::OutputTooLarge)?;
        let grants = self.grants;
        let answer = statement(self.schedule, self.held(), firm, grants, out);
        print_stated(rt, answer, out);
        Ok(())
    }

    fn print_reason(&mut self, rt: &impl Print, firm: &[u8], day: u8, group: &[u8]) {
        let grants = self.grants;
        print_reason(
            rt,
            reason(self.schedule, self.held(), firm, day, group, grants),
        );
    }

    // 3 and 4 are single numbers and no lists: their place is read too, and means nothing.
    fn write_window(&mut self, list: u8, place: usize, number: u64) -> Result<(), Stop> {
        let window = &mut self.window;
        match list {
            0 => set_number(&mut window.raw, place, number)?,
            1 => set_number(&mut window.score, place, number)?,
            2 => set_number(&mut window.lots, place, number)?,
            3 => window.count = number,
            4 => window.oldest = number,
            _ => return Err(Stop::NoSuchNumber),
        }
        Ok(())
    }

    fn push(&mut self, rt: &impl Print, day: Totals) {
        let pushed = push(self.window, day);
        self.window = pushed.window;
        print_pushed(rt, pushed);
    }

    // Runs a command, and prints what the call that it makes answers.
    pub(crate) fn run(&mut self, rt: &impl Print, command: Command<'s>) -> Result<(), Stop> {
        match command {
            Command::Schedule(bytes) => self.schedule = bytes,
            Command::Book { numbers } => self.make_book(numbers)?,
            Command::Write { place, number } => set_number(self.held(), place, number)?,
            Command::Open => {
                print_answer(rt, open(self.schedule, self.held()).map(|()| "opened\n"));
            }
            Command::Post(record) => {
                print_answer(
                    rt,
                    post(self.schedule, self.held(), record).map(effect_line),
                );
            }
            Command::Grants(bytes) => self.grants = bytes,
            Command::Statement { firm, size } => self.print_statement(rt, firm, size)?,
            Command::Reason { firm, day, group } => self.print_reason(rt, firm, day, group),
            Command::Window => self.window = Window::new(),
            Command::WriteWindow {
                list,
                place,
                number,
            } => self.write_window(list, place, number)?,
            Command::Push(day) => self.push(rt, day),
            Command::Verdict {
                raw,
                score,
                lots,
                benchmark,
            } => print_verdict(rt, mep_verdict(raw, score, lots, benchmark)),
            Command::Digest => print_digest(rt, self.held()),
        }
        Ok(())
    }
}
