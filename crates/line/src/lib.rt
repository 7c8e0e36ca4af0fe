// The printed lines: a report's first line, a member's line, a refusal.
#![tactic(auto)]

ghost use Rattle.std.specs.Prelude.{◌∷◌, ◌++◌, []};
ghost use Rattle.text.specs.Text.{decimal};
ghost use Rattle.text.specs.Wrote.{Wrote};
ghost use Rattle.line.specs.Line.{figure_word, line_words, head_words, refusal_words, line_text};

use check_name::name_of;
use decimal::put_decimal;
use outcome::Outcome;
use text::Writer;

// The word `s` and the separator after it.
#[inline(always)]
fn put_label(w: &mut Writer, s: &[u8], separator: u8)
    ensures { Wrote w.old (s.now ++ (separator ∷ [])) w.new }
{
    w.put(s);
    w.put_byte(separator);
}

// The number `v` and the separator after it.
#[inline(always)]
fn put_number(w: &mut Writer, v: u64, separator: u8)
    ensures { Wrote w.old (decimal v ++ (separator ∷ [])) w.new }
{
    put_decimal(w, v);
    w.put_byte(separator);
}

// The figure `f` and the separator after it.
#[inline(always)]
fn put_figure(w: &mut Writer, f: Option<u64>, separator: u8)
    ensures { Wrote w.old (figure_word f ++ (separator ∷ [])) w.new }
{
    match f {
        Some(v) => put_number(w, v, separator),
        None => {
            w.put_byte(b'-');
            w.put_byte(separator);
        }
    }
}

// The line of a member with its newline.
pub fn put_line(w: &mut Writer, mark: u32, o: Outcome)
    ensures { Wrote w.old (line_text (line_words mark o)) w.new }
{
    put_number(w, mark as u64, b' ');
    put_label(w, name_of(o.check), b' ');
    put_figure(w, o.first, b' ');
    put_figure(w, o.second, b' ');
    put_figure(w, o.third, b' ');
    put_figure(w, o.fourth, b'\n');
}

// `members N` and a newline.
pub fn put_head(w: &mut Writer, n: u32)
    ensures { Wrote w.old (line_text (head_words n)) w.new }
{
    put_label(w, b"members", b' ');
    put_number(w, n as u64, b'\n');
}

// `refused N member M` and a newline.
pub fn put_refusal(w: &mut Writer, question: u32, member: u32)
    ensures { Wrote w.old (line_text (refusal_words question member)) w.new }
{
    put_label(w, b"refused", b' ');
    put_number(w, question as u64, b' ');
    put_label(w, b"member", b' ');
    put_number(w, member as u64, b'\n');
}
