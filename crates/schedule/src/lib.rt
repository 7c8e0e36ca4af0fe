// Every byte string is accepted as a schedule, or gets the first question answered no, with its member.
#![tactic(auto)]

ghost use Rattle.std.specs.Prelude.{◌≡◌, IfOk};
ghost use Rattle.varint.specs.Varint.{number_at};
ghost use Rattle.schedule.specs.Schedule.{schedule, schedule_answer};
ghost use Rattle.schedule.specs.Validated.{count_of};

use members::validate_members;
use question::{Question, Refusal};
pub use valid::ValidSchedule;
use varint::Cursor;

mod valid;

// The validator of a schedule: every question that is put to it before its report.
#[tactic(auto, using(crate::proofs::Answers::too_long, crate::proofs::Answers::no_count, crate::proofs::Answers::count_was, crate::proofs::Answers::too_many, crate::proofs::Answers::all_accepted))]
pub fn validate_schedule(src: &[u8]) -> Result<ValidSchedule<'_>, Refusal>
    ensures answer { count_of result ≡ schedule_answer (schedule src.now) }
    ensures first { IfOk result (λ v. (v.input.src ≡ src.entry) × (number_at src.now 0 ≡ Ok (v.count, v.input.at))) }
{
    if 60000 < src.len() {
        return Err(Question::Size.at(0));
    }
    let mut input = Cursor { src, at: 0 };
    let count = input.number().map_err(|q| q.at(0))?;
    if 500 < count {
        return Err(Question::Count.at(0));
    }
    let mut end = input;
    validate_members(&mut end, count)?;
    if end.at < src.len() {
        return Err(Question::Trailing.at(0));
    }
    Ok(ValidSchedule { input, count })
}
