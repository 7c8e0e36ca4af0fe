// The report of a schedule, and the line of one built member, into a lent buffer.
#![tactic(auto)]

ghost use Rattle.report.specs.ReportClaim.{Reported, MemberReported};

use checks::check_member;
use question::Refusal;
use report_text::print_report;
use schedule::validate_schedule;
use text_answer::print_line;
use verdict::Built;

// The report of a schedule's bytes.
pub fn report(src: &[u8], out: &mut [u8]) -> Result<usize, Refusal>
    ensures { Reported src.now out.old out.new result }
{
    print_report(validate_schedule(src)?, out)
}

// The line of a member that a caller built.
#[tactic(auto, using(crate::proofs::ReportClaim::member_refused))]
pub fn member_report(x: Built, out: &mut [u8]) -> Result<usize, Refusal>
    ensures { MemberReported x out.old out.new result }
{
    // by reference: the member is not moved again
    match &x.validate() {
        Ok(member) => print_line(member.mark, check_member(member), out),
        Err(q) => Err(q.at(1)),
    }
}
