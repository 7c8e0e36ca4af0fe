// A schedule held in memory: words that a caller lends, 42 to each member. The validator puts the questions to its members;
// the reader takes a member out.
#![tactic(auto)]

ghost use Rattle.std.specs.Prelude.{◌≡◌, ◌+◌, ◌*◌, ◌≤◌, length};
ghost use Rattle.schedule.specs.Schedule.{schedule_answer};
ghost use Rattle.held_schedule.specs.HeldSchedule.{record_words, record_at, records_from, record_verdict, record_members, held_members};

use field_check::Slots;
use question::{Question, Refusal};
use verdict::{Built, built_verdict};

// The words of a member's record: its mark, its kind, and 40 slots that hold its fields in the order of its kind's table.
pub const RECORD_WORDS: usize = 42;

// The record at word `at`, as a member that a caller built; and the word after it.
pub fn read_record(words: &[u32], at: usize) -> (Built, usize)
    requires { at + record_words ≤ length words.now }
    ensures { (result.0 ≡ record_at words.now at) × (result.1 ≡ at + record_words) }
{
    let next = at + RECORD_WORDS;
    let mut v = [0; 40];
    v.copy_from_slice(&words[at + 2..next]);
    let record = Built {
        mark: words[at],
        kind: words[at + 1],
        fields: Slots { v },
    };
    (record, next)
}

// The questions put to a record whose mark must be above the one before.
#[tactic(auto, unfolding(crate::specs::HeldSchedule::record_verdict))]
fn record_verdict(before: u32, x: &Built) -> Result<(), Question>
    ensures { result ≡ record_verdict before x.now }
{
    if before < x.mark {
        built_verdict(x.mark, x.kind, &x.fields.v)
    } else {
        Err(Question::Mark)
    }
}

// The same of `count` records, one after the other.
#[tactic(auto, using(crate::proofs::Records::record_refused))]
fn validate_records(words: &[u32], count: u32) -> Result<u32, Refusal>
    requires { (count ≤ 500) × (count * record_words ≤ length words.now) }
    ensures { result ≡ schedule_answer (record_members 0 1 (records_from count words.now 0)) }
{
    let mut at = 0;
    let mut before = 0;
    for i in 0..count {
        let (x, next) = read_record(words, at);
        record_verdict(before, &x).map_err(|q| q.at(i + 1))?;
        at = next;
        before = x.mark;
    }
    Ok(count)
}

// The validator of a held schedule: every question that is put to it. Words past the last whole record are not read.
pub fn validate_held(words: &[u32]) -> Result<u32, Refusal>
    ensures { result ≡ schedule_answer (held_members words.now) }
{
    let count = words.len() / RECORD_WORDS;
    if 500 < count {
        Err(Question::Count.at(0))
    } else {
        validate_records(words, count as u32)
    }
}
