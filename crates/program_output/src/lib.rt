// What the report program prints, into a lent buffer.
#![tactic(auto)]

ghost use Rattle.program_output.specs.ProgramOutput.{PrintedSchedule};

use line::put_refusal;
use report::report;
use text::Writer;

// The report of a schedule's bytes, or `refused N member M`, from the buffer's first byte on: how many bytes.
pub fn print_schedule(src: &[u8], out: &mut [u8]) -> usize
    ensures { PrintedSchedule src.now out.old out.new result }
{
    match report(src, out) {
        Ok(n) => n,
        Err(r) => {
            let mut w = Writer::new(out);
            put_refusal(&mut w, u32::from(r.question), r.member);
            w.at
        }
    }
}
