// The text of the report of a schedule that passed every question, put into a lent buffer.
#![tactic(auto)]

ghost use Rattle.std.specs.Prelude.{◌++◌};
ghost use Rattle.text.specs.Wrote.{Wrote};
ghost use Rattle.line.specs.Line.{head_words, line_text};
ghost use Rattle.text_answer.specs.Printed.{text_too_long, Printed};
ghost use Rattle.report_text.specs.ReportText.{lines_from};

use checks::check_member;
use field_layout::ValidMember;
use field_table::kind_of;
use line::{put_head, put_line};
use members::read_member;
use question::{Question, Refusal};
use schedule::ValidSchedule;
use text::Writer;
use text_answer::put_whole;

// The lines of the members.
fn put_members(w: &mut Writer, schedule: ValidSchedule)
    ensures { let s = schedule.entry in Wrote w.old (lines_from s.count s.input.src.now s.input.at) w.new }
{
    let mut input = schedule.input;
    for _ in 0..schedule.count {
        let m = read_member(&mut input);
        let x = ValidMember {
            mark: m.mark,
            kind: kind_of(m.kind),
            fields: m.fields,
        };
        put_line(w, x.mark, check_member(&x));
    }
}

// The whole text.
fn put_report(w: &mut Writer, schedule: ValidSchedule)
    ensures { let s = schedule.entry in Wrote w.old (line_text (head_words s.count) ++ lines_from s.count s.input.src.now s.input.at) w.new }
{
    put_head(w, schedule.count);
    put_members(w, schedule);
}

// The report. No first line is longer than 19 bytes and no other than 55.
pub fn print_report(schedule: ValidSchedule, out: &mut [u8]) -> Result<usize, Refusal>
    ensures { let s = schedule.entry in Printed (text_too_long 0) (line_text (head_words s.count) ++ lines_from s.count s.input.src.now s.input.at) out.old out.new result }
{
    let most = 19 + 55 * (schedule.count as usize);
    put_whole(
        |w| put_report(w, schedule),
        most,
        Question::Buffer.at(0),
        out,
    )
}
