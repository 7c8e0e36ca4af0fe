// Holds what the report program prints, and the files that the writer makes, against vectors that another implementation made. The
// input is a row of vectors: a byte that says what is given, then a schedule (0) or a list of words (any other byte), and the text
// expected, both after their lengths in two bytes, low byte first. Prints how many there are, and how many are equal.
// The last two vectors of the stored input are wrong on purpose, so that the expected output has two unequal: a comparison that
// cannot fail does not print it.
#![tactic(auto)]

ghost use Rattle.std.specs.Prelude.{◌≡◌, ◌+◌, ◌≤◌, ◌<◌, length, get_or, take};
ghost use Rattle.program_output.specs.ProgramOutput.{output_of};
ghost use Rattle.vectors.specs.Vectors.{same_bytes, Holds, pair_at, word_at, words_of, written_of, answer_to, part_end, equal_at, row_tally, tally_of};

use line::put_refusal;
use program_output::print_schedule;
use std::io::Read;
use text::Writer;
use writer::write_schedule;

#[derive(Clone, Copy)]
struct Tally {
    vectors: u64,
    equal: u64,
}

// The byte at p, and 0 past the end.
fn byte_at(src: &[u8], p: usize) -> usize
    ensures { (result ≡ get_or src.now p 0) × (result < 256) }
{
    src.get(p).map_or(0, |b| *b as usize)
}

// The number in the two bytes at p.
fn pair_at(src: &[u8], p: usize) -> usize
    requires { p < 400000 }
    ensures { (result ≡ pair_at src.now p) × (result < 65536) }
{
    byte_at(src, p) + 256 * byte_at(src, p + 1)
}

// The place after the part whose length stands at p.
fn part_end(src: &[u8], p: usize) -> usize
    requires { p < 400000 }
    ensures { (result ≡ part_end src.now p) × (p + 2 ≤ result) × (result < p + 65538) }
{
    p + 2 + pair_at(src, p)
}

fn same(a: &[u8], b: &[u8]) -> bool
    ensures { result ≡ same_bytes a.now b.now }
{
    a == b
}

// The number in the four bytes at p.
fn word_at(src: &[u8], p: usize) -> u32
    requires { p < 65536 }
    ensures { result ≡ word_at src.now p }
{
    (pair_at(src, p) + 65536 * pair_at(src, p + 2)) as u32
}

// The words of these bytes, into the first places of `words`: how many.
fn read_words(src: &[u8], words: &mut [u32]) -> usize
    requires { (length src.now < 65536) × (length words.old ≡ 16384) }
    ensures { Holds words.new result (words_of src.now) }
{
    let n = src.len() / 4;
    for i in 0..n {
        words[i] = word_at(src, 4 * i);
    }
    n
}

// The file of these words, or `refused N member M`, into the buffer's first bytes: how many.
fn write_words(words: &[u32], out: &mut [u8]) -> usize
    requires { length out.old ≡ 60000 }
    ensures { Holds out.new result (written_of words.now) }
{
    match write_schedule(words, out) {
        Ok(n) => n,
        Err(r) => {
            let mut w = Writer::new(out);
            put_refusal(&mut w, u32::from(r.question), r.member);
            w.at
        }
    }
}

// Is the text what is printed for the schedule?
fn prints(schedule: &[u8], text: &[u8]) -> bool
    ensures { result ≡ same_bytes (output_of schedule.now) text.now }
{
    let mut out = [0u8; 60000];
    let n = print_schedule(schedule, &mut out);
    same(&out[..n], text)
}

// Is the text what is written for the words in these bytes? They are at most 16,383 words.
fn writes(src: &[u8], text: &[u8]) -> bool
    requires { length src.now < 65536 }
    ensures { result ≡ same_bytes (written_of (words_of src.now)) text.now }
{
    let mut words = [0u32; 16384];
    let mut out = [0u8; 60000];
    let m = read_words(src, &mut words);
    let n = write_words(&words[..m], &mut out);
    same(&out[..n], text)
}

// Is the text the answer to what is given?
fn agrees(form: usize, given: &[u8], text: &[u8]) -> bool
    requires { length given.now < 65536 }
    ensures { result ≡ same_bytes (answer_to form given.now) text.now }
{
    if form == 0 {
        prints(given, text)
    } else {
        writes(given, text)
    }
}

// Is the vector at p whole, and its text the answer to what is given?
fn equal_at(src: &[u8], p: usize) -> bool
    requires { p ≤ 320001 }
    ensures { result ≡ equal_at src.now p }
{
    let b = part_end(src, p + 1);
    let d = part_end(src, b);
    let a = p + 3;
    let c = b + 2;
    if src.len() < d {
        return false;
    }
    agrees(byte_at(src, p), &src[a..b], &src[c..d])
}

// The vectors of a row, and those that are equal.
fn row_tally(src: &[u8]) -> Tally
    requires { length src.now ≤ 320001 }
    ensures { (result ≡ row_tally src.now) × (result.vectors ≤ 320001) }
{
    let mut vectors: u64 = 0;
    let mut equal: u64 = 0;
    let mut p = 0;
    // a `while`: where a vector ends stands in its bytes
    while p < src.len() {
        equal += u64::from(equal_at(src, p));
        vectors += 1;
        p = part_end(src, part_end(src, p + 1));
    }
    Tally { vectors, equal }
}

// The tally of the first n bytes of `all`, which has room for one byte more than an input may have, so that a longer one is seen.
fn input_tally(all: &[u8], n: usize) -> Tally
    requires { (n ≤ length all.now) × (length all.now ≡ 320001) }
    ensures { result ≡ tally_of (take n all.now) }
{
    let t = row_tally(&all[..n]);
    Tally {
        vectors: t.vectors + u64::from(320000 < n),
        equal: t.equal,
    }
}

// Reads until the buffer is full, the input ends or a read fails: how many bytes stand at the buffer's start.
// A `while`: how many bytes a read brings is known only after it.
fn read_full<R: Read>(input: &mut R, buf: &mut [u8]) -> usize
    ensures { (result ≤ length buf.new) × (result ≡ length (take result buf.new)) }
{
    let mut n: usize = 0;
    while n < buf.len() {
        match input.read(&mut buf[n..]) {
            Ok(0) | Err(_) => break,
            Ok(more) => n += more,
        }
    }
    n
}

fn main(rt: HostRuntime) {
    let mut all = [0u8; 320001];
    let n = read_full(&mut rt.stdin(), &mut all);
    let t = input_tally(&all, n);
    let _ = println!(rt; "vectors {} equal {}", t.vectors, t.equal);
}
