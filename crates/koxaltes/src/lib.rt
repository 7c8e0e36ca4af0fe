// The entries for callers in C and Rust, which crate `koxaltes_c` exports: what crosses is a struct by value, a pointer with a length, a number.
// Every entry takes any input.
#![tactic(auto)]

ghost use Rattle.std.specs.Prelude.{◌≡◌};
ghost use Rattle.verdict.specs.Built.{member_of};
ghost use Rattle.lent_member.specs.Lent.{lent_member};
ghost use Rattle.lent_member.specs.LentSlots.{built_of};
ghost use Rattle.totals.specs.Totals.{bar_totals};
ghost use Rattle.report.specs.Report.{member_report_of};
ghost use Rattle.utilization.specs.Utilized.{utilization_answer};
ghost use Rattle.koxaltes.specs.Entries.{lent_report_of, ReportEntry, MemberEntry, WriteEntry};
ghost use Rattle.koxaltes.specs.UtilizationEntry.{lent_utilization_of, UtilizationEntry};

use answer_record::{AnswerRecord, UtilizationRecord};
use bars::{Group, Groups};
use lent_groups::first_groups;
use lent_member::{Lent, built_from, first_count, second_count};
use report::{member_report, report};
use totals::{BarTotals, copied_totals};
use utilization::utilization_of;
use writer::write_schedule;

// The report of a schedule's bytes.
pub fn koxaltes_report(src: &[u8], out: &mut [u8]) -> AnswerRecord
    ensures { ReportEntry src.now out.old out.new result }
{
    AnswerRecord::from(report(src, out))
}

fn member_answer(x: Lent, first: [Group; 4], second: [Group; 4], out: &mut [u8]) -> AnswerRecord
    ensures { MemberEntry (member_report_of (built_of x first second)) (member_of (built_of x first second)) out.old out.new result }
{
    AnswerRecord::from(member_report(built_from(x, first, second), out))
}

// The line of a member that a caller built: its groups, tension and compression of a beam, are lent as two lists of groups.
// A column has the first list only, a mesh none.
pub fn koxaltes_member_report(
    x: Lent,
    first: &[Group],
    second: &[Group],
    out: &mut [u8],
) -> AnswerRecord
    ensures { MemberEntry (lent_report_of x first.now second.now) (lent_member x first.now second.now) out.old out.new result }
{
    member_answer(
        x,
        first_groups(first, first_count(x)),
        first_groups(second, second_count(x)),
        out,
    )
}

fn utilization_answer(x: Lent, first: [Group; 4], second: [Group; 4]) -> UtilizationRecord
    ensures { UtilizationEntry (utilization_answer (built_of x first second)) (member_of (built_of x first second)) result }
{
    UtilizationRecord::from(utilization_of(built_from(x, first, second)))
}

// The utilization of a member that a caller built, its groups lent as for `koxaltes_member_report`.
pub fn koxaltes_member_utilization(x: Lent, first: &[Group], second: &[Group]) -> UtilizationRecord
    ensures { UtilizationEntry (lent_utilization_of x first.now second.now) (lent_member x first.now second.now) result }
{
    utilization_answer(
        x,
        first_groups(first, first_count(x)),
        first_groups(second, second_count(x)),
    )
}

// The totals of the first `count` groups of a list: number of bars, area, n·d, n·d².
pub fn koxaltes_bar_totals(groups: &[Group], count: usize) -> BarTotals
    ensures { result ≡ bar_totals count groups.now }
{
    copied_totals(Groups {
        list: first_groups(groups, count),
        count,
    })
}

// The file of a schedule held as words, 42 to a member: mark, kind, and 40 slots with its fields in the order of a schedule, four groups to
// each list. Slots past a count, and words past the last whole member, have no effect.
pub fn koxaltes_write_schedule(words: &[u32], out: &mut [u8]) -> AnswerRecord
    ensures { WriteEntry words.now out.old out.new result }
{
    AnswerRecord::from(write_schedule(words, out))
}
