// Answers as structs of numbers, for callers in C and Rust: the question that was answered no, or 0.
#![tactic(auto)]

ghost use Rattle.std.specs.Prelude.{◌≡◌};
ghost use Rattle.text_answer.specs.Printed.{numbers_of};
ghost use Rattle.utilization.specs.Utilized.{values_of};
ghost use Rattle.answer_record.specs.AnswerRecord.{answer_record};
ghost use Rattle.answer_record.specs.UtilizationRecord.{utilization_record};

use governing::governing_of;
use question::Refusal;
use ratio::{Utilization, together};

// An answer: question 0 says that the text, or the file, stands in the buffer's first `length` bytes; any other names the question that was answered
// no and the member, and the buffer is as it was.
#[repr(C)]
#[derive(Clone, Copy)]
pub struct AnswerRecord {
    pub question: u32,
    pub member: u32,
    pub length: usize,
}

// The answer of a report or of a file.
impl From<Result<usize, Refusal>> for AnswerRecord {
    ghost from_gives = { λ a r. r ≡ answer_record (numbers_of a) };

    fn from(a: Result<usize, Refusal>) -> AnswerRecord {
        match a {
            Ok(length) => AnswerRecord {
                question: 0,
                member: 0,
                length,
            },
            Err(r) => AnswerRecord {
                question: r.question.into(),
                member: r.member,
                length: 0,
            },
        }
    }
}

// The utilization of a member: question 0 says that it was given; any other names the question that was answered no and the member.
// `governing` is the largest utilization reached, where `governs` says that any was.
#[repr(C)]
#[derive(Clone, Copy)]
pub struct UtilizationRecord {
    pub question: u32,
    pub member: u32,
    pub utilization: Utilization,
    pub governs: bool,
    pub governing: f64,
}

// The answer of a member's utilization.
impl From<Result<Utilization, Refusal>> for UtilizationRecord {
    ghost from_gives = { λ a r. r ≡ utilization_record (values_of a) };

    fn from(a: Result<Utilization, Refusal>) -> UtilizationRecord {
        match a {
            Ok(utilization) => {
                let governing = governing_of(utilization);
                UtilizationRecord {
                    question: 0,
                    member: 0,
                    utilization,
                    governs: governing.is_some(),
                    governing: governing.unwrap_or(0.0),
                }
            }
            Err(refusal) => UtilizationRecord {
                question: refusal.question.into(),
                member: refusal.member,
                utilization: together(None, None, None, None),
                governs: false,
                governing: 0.0,
            },
        }
    }
}
