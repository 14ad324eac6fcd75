// What a call's answer says where it refuses, and what became of a call, in words.
use rules::Answer;
use std::{fmt, io};

// The first rule that is broken, and its place.
#[derive(Clone, Copy)]
pub struct Refusal {
    rule: u64,
    place: u64,
}

// What became of a call, with the word for one that is accepted.
#[derive(Clone, Copy)]
pub struct Outcome {
    pub result: Result<(), Refusal>,
    pub accepted: &'static str,
}

// Why the program ends early.
#[derive(Drop)]
pub enum Failure {
    Io(io::Error),
    Refused(Refusal),
}

impl Refusal {
    // Of a row that is too short to hold its part.
    pub const SHORT: Refusal = Refusal {
        rule: rules::ROW_LEN,
        place: 0,
    };
}

// The answer of a call as a result.
pub fn check(answer: Answer) -> Result<(), Refusal> {
    if answer.number == 0 {
        Ok(())
    } else {
        Err(Refusal {
            rule: answer.number,
            place: answer.place,
        })
    }
}

impl fmt::Display for Refusal {
    fn fmt<W: fmt::Write>(&self, f: &mut fmt::Formatter<W>) -> fmt::Result {
        let rule = self.rule;
        let place = self.place;
        write!(f, "refused by rule {rule}, place {place}")
    }
}

impl fmt::Display for Outcome {
    fn fmt<W: fmt::Write>(&self, f: &mut fmt::Formatter<W>) -> fmt::Result {
        match self.result {
            Ok(()) => f.write_str(self.accepted),
            Err(refusal) => write!(f, "{refusal}"),
        }
    }
}

impl From<io::Error> for Failure {
    fn from(error: io::Error) -> Failure {
        Failure::Io(error)
    }
}

impl From<Refusal> for Failure {
    fn from(refusal: Refusal) -> Failure {
        Failure::Refused(refusal)
    }
}
