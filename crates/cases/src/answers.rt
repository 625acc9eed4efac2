// The lines of the answers.
use crate::digest::with_numbers;
use crate::hex::put_hex;
use book::Effect;
use month::MonthSums;
use reason::{Explanation, Waiver};
use refusals::Refusal;
use rules::{Sides, Totals};
use statement::LARGEST;
use std::io;
use window::{Pushed, Window, WindowSums};

// What cannot be written is dropped: the second implementation's answers show what is missing.
pub(crate) fn say(written: io::Result<()>) {
    let _ = written;
}

// What a call answered that has a line of its own for its answer. Nothing is formatted in it, so it is written as it stands.
pub(crate) fn print_answer(rt: &impl Print, answer: Result<&str, Refusal>) {
    match answer {
        Err(refusal) => say(println!(rt; "{refusal}")),
        Ok(line) => say(rt.write_all(line.as_bytes())),
    }
}

pub(crate) fn effect_line(effect: Effect) -> &'static str {
    match effect {
        Effect::Outside => "outside\n",
        Effect::Counted => "counted\n",
    }
}

// What a statement answered, and the whole output in hexadecimal digits: after a refusal too, so that a change of it can be seen.
pub(crate) fn print_stated(rt: &impl Print, answer: Result<usize, Refusal>, out: &[u8]) {
    let mut text = [0; 2 * LARGEST];
    let digits = put_hex(out, &mut text);
    match answer {
        Err(refusal) => say(print!(rt; "{refusal} ")),
        Ok(bytes) => say(print!(rt; "written {bytes} ")),
    }
    say(rt.write_all(&text[..digits]));
    say(println!(rt; ""));
}

// The word of a reason, and R, S, V and d behind it.
fn print_sums(rt: &impl Print, word: &str, sums: MonthSums) {
    let MonthSums {
        raw,
        score,
        lots,
        days,
    } = sums;
    say(print!(rt; "reason {word} {raw} {score} {lots} {days}"));
}

// The code stands in hexadecimal digits, as the second implementation prints it.
fn print_waiver(rt: &impl Print, waiver: Waiver) {
    let mut text = [0; 4];
    let digits = put_hex(&waiver.code, &mut text);
    let day = waiver.day;
    say(print!(rt; " {day} "));
    say(rt.write_all(&text[..digits]));
}

fn print_explanation(rt: &impl Print, explanation: Explanation) {
    match explanation {
        Explanation::NotAViolation => say(print!(rt; "reason not-a-violation")),
        Explanation::Severe(Sides { scored, allowed }) => {
            say(print!(rt; "reason severe {scored} {allowed}"));
        }
        Explanation::Monthly(sums) => print_sums(rt, "monthly", sums),
        Explanation::Automatic { number } => say(print!(rt; "reason automatic {number}")),
        Explanation::Granted => say(print!(rt; "reason granted")),
        Explanation::Billed {
            sums,
            first,
            second,
        } => {
            print_sums(rt, "billed", sums);
            print_waiver(rt, first);
            print_waiver(rt, second);
        }
    }
}

// What a reason answered.
pub(crate) fn print_reason(rt: &impl Print, answer: Result<Explanation, Refusal>) {
    match answer {
        Err(refusal) => say(print!(rt; "{refusal}")),
        Ok(explanation) => print_explanation(rt, explanation),
    }
    say(println!(rt; ""));
}

// The word of a window, and R, S, V and n behind it.
fn print_window(rt: &impl Print, sums: WindowSums) {
    let Totals { raw, score, lots } = sums.totals;
    let days = sums.days;
    say(print!(rt; "window {raw} {score} {lots} {days}"));
}

// The digest of a window's numbers: the lists, the count, the oldest's place.
fn digest_of_window(window: &Window) -> u64 {
    let raw = with_numbers(0, &window.raw);
    let score = with_numbers(raw, &window.score);
    let lots = with_numbers(score, &window.lots);
    with_numbers(lots, &[window.count, window.oldest])
}

// What a new day of a window answered, and the digest of the window's numbers: after a refusal too, so that a change of it can be seen.
pub(crate) fn print_pushed(rt: &impl Print, pushed: Pushed) {
    match pushed.answer {
        Err(cause) => {
            let refusal = Refusal::from(cause);
            say(print!(rt; "{refusal}"));
        }
        Ok(sums) => print_window(rt, sums),
    }
    let digest = digest_of_window(&pushed.window);
    say(println!(rt; " {digest}"));
}

// The panel's number of a verdict.
pub(crate) fn print_verdict(rt: &impl Print, number: u64) {
    say(println!(rt; "code {number}"));
}

pub(crate) fn print_digest(rt: &impl Print, book: &[u64]) {
    let numbers = book.len();
    let digest = with_numbers(0, book);
    say(println!(rt; "book {numbers} {digest}"));
}
