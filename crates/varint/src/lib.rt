// The numbers of a schedule: unsigned LEB128 (varint) in shortest form. Each byte has seven bits of the number, a septet, lowest first;
// its top bit is set where another follows. Document 01 calls a septet a group.
#![tactic(auto)]

ghost use Rattle.std.specs.Prelude.{◌≡◌, ◌+◌, ◌*◌, ◌^◌, ◌<◌, ◌≤◌, length, OnErr};
ghost use Rattle.varint.specs.Varint.{number_at, septets_at, last_septet};
ghost use Rattle.varint.specs.Placed.{of_number};
ghost use Rattle.varint.specs.Moved.{Moved};

use question::Question;

// The number whose last septet is b, of weight w, and ends before `next`; v is the value of the septets below it, of which there is one or more.
fn last_septet(b: u64, w: u64, v: u64, next: usize) -> Result<(u32, usize), Question>
    requires { (1 < w) × (v + b * w < 2 ^ 64) }
    ensures { result ≡ last_septet b w v next }
{
    if b == 0 {
        return Err(Question::NumberForm);
    }
    let value = v + b * w;
    if value < 4294967296 {
        Ok((value as u32, next))
    } else {
        Err(Question::NumberForm)
    }
}

// The septets from the third on, the third at `at`; low is the value of the first two.
fn long_number(src: &[u8], at: usize, low: u64) -> Result<(u32, usize), Question>
    requires { (low < 16384) × (at ≤ length src.now) }
    ensures { result ≡ septets_at 3 src.now at 16384 low }
{
    let mut w: u64 = 16384;
    let mut v = low;
    for p in at..at + 3 {
        if src.len() <= p {
            return Err(Question::NumberEnds);
        }
        let b = src[p] as u64;
        if b < 128 {
            return last_septet(b, w, v, p + 1);
        }
        v += (b - 128) * w;
        w *= 128;
    }
    Err(Question::NumberForm)
}

// The number whose first septet stands at `at`, and the place after its last; or the question that is answered no, 2 or 3.
// Most numbers are one or two septets, so these are read without a loop.
#[inline(always)]
fn number_at(src: &[u8], at: usize) -> Result<(u32, usize), Question>
    ensures { result ≡ number_at src.now at }
{
    if src.len() <= at {
        return Err(Question::NumberEnds);
    }
    let first = src[at] as u64;
    if first < 128 {
        return Ok((first as u32, at + 1));
    }
    if src.len() <= at + 1 {
        return Err(Question::NumberEnds);
    }
    let second = src[at + 1] as u64;
    if second < 128 {
        return last_septet(second, 128, first - 128, at + 2);
    }
    long_number(src, at + 2, first - 128 + (second - 128) * 128)
}

// The bytes of a schedule, and the place of the next one.
#[derive(Clone, Copy)]
pub struct Cursor<'a> {
    pub src: &'a [u8],
    pub at: usize,
}

impl Cursor<'_> {
    // The next number; or the question that is answered no, 2 or 3, and the cursor stays where it was.
    #[inline(always)]
    pub fn number(&mut self) -> Result<u32, Question>
        ensures moved { Moved self.old (of_number (number_at self.old.src.now self.old.at)) result self.new }
        ensures stays { OnErr result (self.new.at ≡ self.old.at) }
    {
        let (value, next) = number_at(self.src, self.at)?;
        self.at = next;
        Ok(value)
    }
}
