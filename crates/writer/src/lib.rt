// A held schedule is written: its bytes into a lent buffer.
#![tactic(auto)]

ghost use Rattle.std.specs.Prelude.{◌++◌, ◌*◌, ◌≤◌, length};
ghost use Rattle.text.specs.Wrote.{Wrote};
ghost use Rattle.varint.specs.Encoding.{bytes_of};
ghost use Rattle.text_answer.specs.Printed.{Printed};
ghost use Rattle.held_schedule.specs.HeldSchedule.{record_words, records_from};
ghost use Rattle.round_trip.specs.RecordBytes.{records_bytes, AllInRange};
ghost use Rattle.writer.specs.Written.{file_too_long, ScheduleWritten};

use encoding::{put_member, put_number};
use held_schedule::{read_record, validate_held};
use question::{Question, Refusal};
use text::Writer;
use text_answer::put_whole;

// The bytes of the first `count` records.
fn put_records(w: &mut Writer, words: &[u32], count: u32)
    requires { (count * record_words ≤ length words.now) × AllInRange (records_from count words.now 0) }
    ensures { Wrote w.old (records_bytes (records_from count words.now 0)) w.new }
{
    let mut at = 0;
    for _ in 0..count {
        let (x, next) = read_record(words, at);
        put_member(w, x.mark, x.kind, &x.fields.v);
        at = next;
    }
}

// The whole file.
fn put_schedule(w: &mut Writer, words: &[u32], count: u32)
    requires { (count * record_words ≤ length words.now) × AllInRange (records_from count words.now 0) }
    ensures { Wrote w.old (bytes_of count ++ records_bytes (records_from count words.now 0)) w.new }
{
    put_number(w, count);
    put_records(w, words, count);
}

// The file of the first `count` records. The count of at most 500 takes two bytes at most and no member more than 61.
fn write_records(words: &[u32], count: u32, out: &mut [u8]) -> Result<usize, Refusal>
    requires { (count ≤ 500) × (count * record_words ≤ length words.now) × AllInRange (records_from count words.now 0) }
    ensures { Printed file_too_long (bytes_of count ++ records_bytes (records_from count words.now 0)) out.old out.new result }
{
    let most = 2 + 61 * (count as usize);
    put_whole(
        |w| put_schedule(w, words, count),
        most,
        Question::File.at(0),
        out,
    )
}

// The file of a held schedule: its members are put their questions, then its bytes are put.
pub fn write_schedule(words: &[u32], out: &mut [u8]) -> Result<usize, Refusal>
    ensures { ScheduleWritten words.now out.old out.new result }
{
    let count = validate_held(words)?;
    write_records(words, count, out)
}
