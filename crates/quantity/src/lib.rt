// Whole-number arithmetic with stated rounding, and the codes' units as types of their own.
#![tactic(auto)]

ghost use Rattle.std.specs.Prelude.{◌≡◌, ◌&&◌, ◌||◌, ◌+◌, ◌-◌, ◌*◌, ◌<◌, ◌^◌, min, max, if◌then◌else◌};
ghost use Rattle.quantity.specs.Rounding.{up, down, clamp};
ghost use Rattle.quantity.specs.Unit.{newtons, millimetres, stress_of, stress_of_tenths, stress_of_hundredths, in_units, in_tenths, in_hundredths};

use std::ops::Add;

// n / d, rounded down.
pub fn div_down(n: u64, d: u64) -> u64
    requires { 0 < d }
    ensures { result ≡ down n d }
{
    n / d
}

// n / d, rounded up.
pub fn div_up(n: u64, d: u64) -> u64
    requires { 0 < d }
    ensures { result ≡ up n d }
{
    n.div_ceil(d)
}

// x held to lo .. hi; hi where lo is above it, which `u64::clamp` does not take.
pub fn clamped(lo: u64, hi: u64, x: u64) -> u64
    ensures { result ≡ clamp lo hi x }
{
    x.max(lo).min(hi)
}

// Saturating subtraction without a branch. 2^32 + a - b reaches 2^32 exactly where a is at least b: its quotient by 2^32 is then
// 1 and its remainder a - b, and else the quotient is 0.
fn branchless_saturating_sub(a: u32, b: u32) -> u32
    ensures { result ≡ a - b }
{
    let sum = 4294967296 + a as u64 - b as u64;
    (sum / 4294967296 * (sum % 4294967296)) as u32
}

fn branchless_smaller(a: u32, b: u32) -> u32
    ensures { result ≡ min a b }
{
    a - branchless_saturating_sub(a, b)
}

fn branchless_larger(a: u32, b: u32) -> u32
    ensures { result ≡ max a b }
{
    a + branchless_saturating_sub(b, a)
}

// x held to lo .. hi by arithmetic alone (document 02's sums), for any 32-bit number.
pub fn branchless_clamped(lo: u32, hi: u32, x: u32) -> u32
    ensures { result ≡ clamp lo hi x }
{
    branchless_smaller(hi, branchless_larger(lo, x))
}

// Newtons.
#[derive(Clone, Copy, PartialEq, Eq, PartialOrd, Ord)]
pub struct Force(pub u64);

// Millimetres.
#[derive(Clone, Copy, PartialEq, Eq, PartialOrd, Ord)]
pub struct Length(pub u64);

// Hundredths of a newton per square millimetre.
#[derive(Clone, Copy)]
pub struct Stress(pub u64);

impl Force {
    pub fn of_newtons(n: u64) -> Force
        ensures { result ≡ newtons n }
    {
        Force(n)
    }

    pub fn in_newtons(self) -> u64
        ensures { result ≡ self.0 }
    {
        self.0
    }
}

impl Add for Force {
    type Output = Force;

    ghost can_add = { λ f g. f.0 + g.0 < 2 ^ 64 };

    ghost add_gives = { λ f g sum. sum ≡ newtons (f.0 + g.0) };

    fn add(self, other: Force) -> Force {
        Force(self.0 + other.0)
    }
}

impl Length {
    pub fn of_millimetres(n: u64) -> Length
        ensures { result ≡ millimetres n }
    {
        Length(n)
    }

    pub fn in_millimetres(self) -> u64
        ensures { result ≡ self.0 }
    {
        self.0
    }

    // The length that is left of this one, 0 where the other is longer.
    pub fn saturating_sub(self, other: Length) -> Length
        ensures { result ≡ millimetres (self.0 - other.0) }
    {
        Length(self.0.saturating_sub(other.0))
    }
}

impl Stress {
    pub fn of_units(n: u32) -> Stress
        ensures { result ≡ stress_of n }
    {
        Stress(100 * (n as u64))
    }

    pub fn of_tenths(n: u32) -> Stress
        ensures { result ≡ stress_of_tenths n }
    {
        Stress(10 * (n as u64))
    }

    pub fn of_hundredths(n: u32) -> Stress
        ensures { result ≡ stress_of_hundredths n }
    {
        Stress(n as u64)
    }

    pub fn in_units(self) -> u64
        ensures { result ≡ in_units self }
    {
        div_down(self.0, 100)
    }

    pub fn in_tenths(self) -> u64
        ensures { result ≡ in_tenths self }
    {
        div_down(self.0, 10)
    }

    pub fn in_hundredths(self) -> u64
        ensures { result ≡ in_hundredths self }
    {
        self.0
    }
}
