// Numbers put into a lent buffer in decimal.
#![tactic(auto)]

ghost use Rattle.std.specs.Prelude.{◌≡◌, ◌∷◌, [], ◌+◌, ◌/◌, ◌%◌, ◌<◌, ◌≤◌, length};
ghost use Rattle.text.specs.Text.{decimal};
ghost use Rattle.text.specs.Put.{Put};
ghost use Rattle.text.specs.Wrote.{Wrote};

use text::Writer;

// The byte of a decimal digit.
fn digit(d: u64) -> u8
    requires { d < 10 }
    ensures { result ≡ 48 + d }
{
    48 + d as u8
}

// The two digits of a number below 100, where there is room for them.
#[inline(always)]
fn set_two(w: &mut Writer, two: u64)
    requires { (two < 100) × (w.old.at + 2 ≤ length w.old.out.now) }
    ensures { Wrote w.old ((48 + two / 10) ∷ (48 + two % 10) ∷ []) w.new }
{
    w.out[w.at] = digit(two / 10);
    w.out[w.at + 1] = digit(two % 10);
    w.at += 2;
}

// The four digits of a number below 10000, where there is room for them.
#[inline(always)]
fn set_four(w: &mut Writer, four: u64)
    requires { (four < 10000) × (w.old.at + 4 ≤ length w.old.out.now) }
    ensures { Wrote w.old ((48 + four / 100 / 10) ∷ (48 + four / 100 % 10) ∷ (48 + four % 100 / 10) ∷ (48 + four % 100 % 10) ∷ []) w.new }
{
    set_two(w, four / 100);
    set_two(w, four % 100);
}

// A number below 100 in decimal, where there is room for two digits.
#[inline(always)]
fn set_short(w: &mut Writer, v: u64)
    requires { (v < 100) × (w.old.at + 2 ≤ length w.old.out.now) }
    ensures { Wrote w.old (decimal v) w.new }
{
    if v < 10 {
        w.out[w.at] = digit(v);
        w.at += 1;
    } else {
        set_two(w, v);
    }
}

// A number below 10000 in decimal, where there is room for four digits.
#[inline(always)]
fn set_medium(w: &mut Writer, v: u64)
    requires { (v < 10000) × (w.old.at + 4 ≤ length w.old.out.now) }
    ensures { Wrote w.old (decimal v) w.new }
{
    if v < 100 {
        set_short(w, v);
    } else {
        set_short(w, v / 100);
        set_two(w, v % 100);
    }
}

// A number below 10^8 in decimal, where there is room for eight digits.
#[inline(always)]
fn set_long(w: &mut Writer, v: u64)
    requires { (v < 100000000) × (w.old.at + 8 ≤ length w.old.out.now) }
    ensures { Wrote w.old (decimal v) w.new }
{
    if v < 10000 {
        set_medium(w, v);
    } else {
        set_medium(w, v / 10000);
        set_four(w, v % 10000);
    }
}

// `v` in decimal, whatever room there is: first the digits before the last eight, then those eight, copied from an array.
fn put_tight(w: &mut Writer, v: u64)
    ensures { Wrote w.old (decimal v) w.new }
{
    let mut digits = [0u8; 8];
    if v < 100000000 {
        let mut last = Writer::new(&mut digits);
        set_long(&mut last, v);
        let n = last.at;
        w.put(&digits[..n]);
    } else {
        put_tight(w, v / 100000000);
        let mut last = Writer::new(&mut digits);
        set_four(&mut last, v / 10000 % 10000);
        set_four(&mut last, v % 10000);
        w.put(&digits);
    }
}

// A number below 10^8 in decimal into a buffer from `at` on, where there is room for eight digits: the place after it. The writer is its
// own, so the compiler keeps its place in a register.
fn set_from(out: &mut [u8], at: usize, v: u64) -> usize
    requires { (v < 100000000) × (at + 8 ≤ length out.old) }
    ensures { Put out.old at (decimal v) out.new result }
{
    let mut w = Writer { out, at };
    set_long(&mut w, v);
    w.at
}

// `v` in decimal, without leading zeros: up to eight digits are stored with one look at the room.
pub fn put_decimal(w: &mut Writer, v: u64)
    ensures { Wrote w.old (decimal v) w.new }
{
    if v < 100000000 && 8 <= w.out.len().saturating_sub(w.at) {
        w.at = set_from(w.out, w.at, v);
    } else {
        put_tight(w, v);
    }
}
