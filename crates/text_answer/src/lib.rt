// A text or a file put into a lent buffer, or refused where it is too short: questions 12 and 13.
#![tactic(auto)]

ghost use Rattle.std.specs.Prelude.{ℕ, List, ◌≤◌, length};
ghost use Rattle.text.specs.Put.{Put};
ghost use Rattle.text.specs.Wrote.{Wrote};
ghost use Rattle.line.specs.Line.{line_words, line_text};
ghost use Rattle.text_answer.specs.Printed.{text_too_long, Printed};

use line::put_line;
use outcome::Outcome;
use question::{Question, Refusal};
use text::Writer;

// A text alone: its length.
fn put_alone<F: Fn(&mut Writer)>(put: &F, out: &mut [u8]) -> usize
    ghost text: { List ℕ }
    requires callable { F.IsAlwaysCallable put.now }
    requires puts { (w w' : _) → F.post put.now w tt w' → Wrote w.now text w'.now }
    ensures { Put out.old 0 text out.new result }
{
    let mut w = Writer::new(out);
    put(&mut w);
    w.at
}

// Puts a text of at most `most` bytes, or refuses it where there is no room. A buffer of `most` bytes needs no first run, which
// only finds how long the text is.
pub fn put_whole<F: Fn(&mut Writer)>(
    put: F,
    most: usize,
    full: Refusal,
    out: &mut [u8],
) -> Result<usize, Refusal>
    ghost text: { List ℕ }
    requires callable { F.IsAlwaysCallable put }
    requires short { length text ≤ most }
    requires puts { (w w' : _) → F.post put w tt w' → Wrote w.now text w'.now }
    ensures { Printed full text out.old out.new result }
{
    if out.len() < most && out.len() < put_alone(&put, &mut []) {
        return Err(full);
    }
    Ok(put_alone(&put, out))
}

// The same of a line that is at most 55 bytes long.
pub fn print_line(mark: u32, o: Outcome, out: &mut [u8]) -> Result<usize, Refusal>
    requires { length (line_text (line_words mark o)) ≤ 55 }
    ensures { Printed (text_too_long 1) (line_text (line_words mark o)) out.old out.new result }
{
    put_whole(|w| put_line(w, mark, o), 55, Question::Buffer.at(1), out)
}
