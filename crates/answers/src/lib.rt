// The answers that several commands of replay give.
#![tactic(auto)]

pub mod buffered;
pub mod print;

use lines::words::Malformed;
use rules::Answer;
use std::fmt::Display;
use std::io;
use std::io::Write;

// Why a case was not answered.
#[derive(Drop)]
pub enum CaseError {
    Malformed,
    Io(io::Error),
}

impl From<Malformed> for CaseError {
    fn from(_error: Malformed) -> CaseError {
        CaseError::Malformed
    }
}

impl From<io::Error> for CaseError {
    fn from(error: io::Error) -> CaseError {
        CaseError::Io(error)
    }
}

pub type Answered = Result<(), CaseError>;

fn is_accepted(answer: Answer) -> bool {
    answer.number == 0 && answer.place == 0
}

// The refusal, or `ok` and what the call gave.
pub fn answer<W: Write, G: Display + Drop>(out: &mut W, answer: Answer, given: G) -> Answered {
    if is_accepted(answer) {
        writeln!(out, "ok {given}")?;
    } else {
        writeln!(out, "refused {} {}", answer.number, answer.place)?;
    }
    Ok(())
}

// The same of a call that was lent rows. Were they not left as they had been where it refuses, it would
// say so.
pub fn answer_lent<W: Write, G: Display + Drop>(
    out: &mut W,
    answer: Answer,
    kept: bool,
    given: G,
) -> Answered {
    if !is_accepted(answer) && !kept {
        return changed(out);
    }
    crate::answer(out, answer, given)
}

// The answer where a call wrote what it may not write.
pub fn changed<W: Write>(out: &mut W) -> Answered {
    writeln!(out, "changed")?;
    Ok(())
}
