// The commands of a script. Each has its operands behind its own byte.
ghost use Rattle.std.specs.Prelude.{◌≡◌, ◌-◌, ◌≤◌, length};
ghost use Rattle.std.specs.Iterator.{at_most};
ghost use Rattle.cases.specs.Script.{past_in};

use crate::script::Script;
use crate::stop::Stop;
use rules::Totals;

// A command, with its operands.
#[derive(Clone, Copy)]
pub(crate) enum Command<'a> {
    // S: the schedule of the calls that follow.
    Schedule(&'a [u8]),
    // B: a new book of so many numbers.
    Book {
        numbers: usize,
    },
    // W: one number of the book.
    Write {
        place: usize,
        number: u64,
    },
    // O: opens the book.
    Open,
    // P: posts a record.
    Post(&'a [u8]),
    // T: the statement of a firm, into an output of so many bytes.
    Statement {
        firm: &'a [u8],
        size: usize,
    },
    // G: the grants of the statements and reasons that follow.
    Grants(&'a [u8]),
    // R: the reason for a firm's day in a group.
    Reason {
        firm: &'a [u8],
        day: u8,
        group: &'a [u8],
    },
    // N: a new window.
    Window,
    // U: one number of the window: of the list 0 raw, 1 score or 2 lots at a place, or 3 the count or 4 the oldest's place, whatever
    // the place.
    WriteWindow {
        list: u8,
        place: usize,
        number: u64,
    },
    // Q: a new day of the window.
    Push(Totals),
    // V: the verdict on a day's raw count, score, lots and benchmark.
    Verdict {
        raw: u64,
        score: u64,
        lots: u64,
        benchmark: u64,
    },
    // D: the digest of the book.
    Digest,
}

// Reads the next command. Its own byte is a step on at least, so a script's commands end.
fn read_command<'a>(script: &mut Script<'a>) -> Result<Command<'a>, Stop>
    ensures bytes { script.new.bytes.now ≡ script.old.bytes.now }
    ensures on { past_in script.old.bytes.now script.old.at 1 ≤ script.new.at }
{
    let command = match script.byte() {
        b'S' => Command::Schedule(script.piece()),
        b'B' => Command::Book {
            numbers: script.u32() as usize,
        },
        b'W' => Command::Write {
            place: script.u32() as usize,
            number: script.u64(),
        },
        b'O' => Command::Open,
        b'P' => Command::Post(script.piece()),
        b'T' => Command::Statement {
            firm: script.piece(),
            size: script.u32() as usize,
        },
        b'G' => Command::Grants(script.piece()),
        b'R' => Command::Reason {
            firm: script.piece(),
            day: script.byte(),
            group: script.piece(),
        },
        b'N' => Command::Window,
        b'U' => Command::WriteWindow {
            list: script.byte(),
            place: usize::from(script.byte()),
            number: script.u64(),
        },
        b'Q' => Command::Push(Totals {
            raw: script.u64(),
            score: script.u64(),
            lots: script.u64(),
        }),
        b'V' => Command::Verdict {
            raw: script.u64(),
            score: script.u64(),
            lots: script.u64(),
            benchmark: script.u64(),
        },
        b'D' => Command::Digest,
        _ => return Err(Stop::BadCommand),
    };
    Ok(command)
}

// The commands of a script, from the next one on.
#[derive(Clone, Copy)]
pub(crate) struct Commands<'a>(pub Script<'a>);

impl<'a> Iterator for Commands<'a> {
    type Item = Result<Command<'a>, Stop>;

    ghost remaining = { λ c. at_most (length c.0.bytes.now - c.0.at) };

    fn next(&mut self) -> Option<Result<Command<'a>, Stop>> {
        if self.0.is_done() {
            return None;
        }
        Some(read_command(&mut self.0))
    }
}
