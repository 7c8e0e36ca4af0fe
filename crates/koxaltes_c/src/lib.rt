// The static library: the entries of crate `koxaltes` under their C names. A slice crosses as a pointer, then a length.
// `bindings/c/koxaltes.h` declares them, and says what a C caller owes.
#![tactic(auto)]

ghost use Rattle.std.specs.Prelude.{◌≡◌};
ghost use Rattle.lent_member.specs.Lent.{lent_member};
ghost use Rattle.totals.specs.Totals.{bar_totals};
ghost use Rattle.koxaltes.specs.Entries.{lent_report_of, ReportEntry, MemberEntry, WriteEntry};
ghost use Rattle.koxaltes.specs.UtilizationEntry.{lent_utilization_of, UtilizationEntry};

use answer_record::{AnswerRecord, UtilizationRecord};
use bars::Group;
use lent_member::Lent;
use totals::BarTotals;

// The report of a schedule's bytes.
#[unsafe(no_mangle)]
pub extern "C" fn koxaltes_report(src: &[u8], out: &mut [u8]) -> AnswerRecord
    ensures { ReportEntry src.now out.old out.new result }
{
    koxaltes::koxaltes_report(src, out)
}

// The line of a member that a caller built, its groups lent as two lists.
#[unsafe(no_mangle)]
pub extern "C" fn koxaltes_member_report(
    x: Lent,
    first: &[Group],
    second: &[Group],
    out: &mut [u8],
) -> AnswerRecord
    ensures { MemberEntry (lent_report_of x first.now second.now) (lent_member x first.now second.now) out.old out.new result }
{
    koxaltes::koxaltes_member_report(x, first, second, out)
}

// The utilization of a member that a caller built, its groups lent as for `koxaltes_member_report`.
#[unsafe(no_mangle)]
pub extern "C" fn koxaltes_member_utilization(
    x: Lent,
    first: &[Group],
    second: &[Group],
) -> UtilizationRecord
    ensures { UtilizationEntry (lent_utilization_of x first.now second.now) (lent_member x first.now second.now) result }
{
    koxaltes::koxaltes_member_utilization(x, first, second)
}

// The totals of the first `count` groups of a list: number of bars, area, n·d, n·d².
#[unsafe(no_mangle)]
pub extern "C" fn koxaltes_bar_totals(groups: &[Group], count: usize) -> BarTotals
    ensures { result ≡ bar_totals count groups.now }
{
    koxaltes::koxaltes_bar_totals(groups, count)
}

// The file of a schedule held as words, 42 to a member.
#[unsafe(no_mangle)]
pub extern "C" fn koxaltes_write_schedule(words: &[u32], out: &mut [u8]) -> AnswerRecord
    ensures { WriteEntry words.now out.old out.new result }
{
    koxaltes::koxaltes_write_schedule(words, out)
}
