// Bending of beams: least steel, depth of the compression zone and moment capacity.
#![tactic(auto, using(crate::proofs::Bounds::sizes))]

ghost use Rattle.std.specs.Prelude.{◌≡◌, true, ◌-◌};
ghost use Rattle.section.specs.Section.{h₀, a', G};
ghost use Rattle.bending.specs.Steps.{least_steel, tension_force, compression_force, t, k, compression_depth, compression_yields, steel_moment, yielded_capacity, couple_capacity, bending_capacity};

use quantity::{div_down, div_up};
use section::ValidSection;

// G, in mm².
fn gross_area(x: ValidSection) -> u64
    ensures { result ≡ G x.section }
{
    x.section.b.in_millimetres() * x.section.h.in_millimetres() + x.section.flange
}

// 6.3.1.
#[tactic(auto, using(crate::proofs::Bounds::sizes), unfolding(crate::specs::Steps::least_steel))]
pub fn least_steel(x: ValidSection) -> bool
    ensures { result ≡ least_steel x.section }
{
    let gross = gross_area(x);
    let fy = x.section.steel.fy.in_units();
    let ft = x.section.concrete.ft.in_hundredths();
    gross <= 50 * x.section.tension && 45 * ft * gross <= 1000 * x.section.tension * fy
}

// fy·S, in tenths of N.
fn tension_force(x: ValidSection) -> u64
    ensures { result ≡ tension_force x.section }
{
    x.section.steel.fy.in_units() * x.section.tension
}

// fy'·S', in tenths of N.
fn compression_force(x: ValidSection) -> u64
    ensures { result ≡ compression_force x.section }
{
    x.section.steel.fyc.in_units() * x.section.compression
}

// k = α1·fc·b, in thousandths of N for each mm of the compression zone's depth.
fn block_force_per_mm(x: ValidSection) -> u64
    ensures { result ≡ k x.section }
{
    x.section.parameters.stressFactor
        * x.section.concrete.fc.in_tenths()
        * x.section.b.in_millimetres()
}

// 4.2.2-3.
#[tactic(auto, using(crate::proofs::Bounds::sizes), unfolding(crate::specs::Steps::compression_depth))]
pub fn compression_depth(x: ValidSection) -> bool
    ensures { result ≡ compression_depth x.section }
{
    let limit = x.section.parameters.depthLimit.num
        * x.section.h0.in_millimetres()
        * block_force_per_mm(x);
    let scale = 100 * x.section.parameters.depthLimit.den;
    scale * tension_force(x) <= limit + scale * compression_force(x)
}

// Whether the compression steel yields: 4.2.2 applies, and not 4.2.3. Without compression steel a' is 0, and the comparison holds.
#[tactic(auto, using(crate::proofs::Bounds::sizes), unfolding(crate::specs::Steps::compression_yields))]
pub fn compression_yields(x: ValidSection) -> bool
    ensures { result ≡ compression_yields x.section }
{
    let reach = 2 * x.section.ac.in_millimetres() * block_force_per_mm(x);
    100 * compression_force(x) + reach <= 100 * tension_force(x)
}

// h0 - a', in mm.
fn lever_arm(x: ValidSection) -> u64
    ensures { result ≡ h₀ x.section - a' x.section }
{
    x.section.h0.saturating_sub(x.section.ac).in_millimetres()
}

// t, which is not below 0 where 4.2.2 applies.
#[tactic(auto, using(crate::proofs::Bounds::sizes), unfolding(crate::specs::Steps::compression_yields))]
fn net_tension(x: ValidSection) -> u64
    requires { compression_yields x.section ≡ true }
    ensures { result ≡ t x.section }
{
    tension_force(x) - compression_force(x)
}

// t·h0 + fy'·S'·(h0-a').
fn steel_moment(x: ValidSection) -> u64
    requires { compression_yields x.section ≡ true }
    ensures { result ≡ steel_moment x.section }
{
    net_tension(x) * x.section.h0.in_millimetres() + compression_force(x) * lever_arm(x)
}

// 4.2.2, the compression steel yields. t²/(2k) is rounded up before it is taken off, which leaves the one rounding down the same;
// k counts hundredths of t's unit, so t²/2 is taken 100 times.
fn yielded_capacity(x: ValidSection) -> u64
    requires { (compression_yields x.section ≡ true) × (compression_depth x.section ≡ true) }
    ensures { result ≡ yielded_capacity x.section }
{
    let t = net_tension(x);
    let square = div_up(50 * (t * t), block_force_per_mm(x));
    div_down(steel_moment(x) - square, 10000)
}

// 4.2.3, the couple of tension and compression steel.
#[tactic(auto, using(crate::proofs::Bounds::sizes), unfolding(crate::specs::Steps::couple_capacity))]
fn couple_capacity(x: ValidSection) -> u64
    ensures { result ≡ couple_capacity x.section }
{
    div_down(tension_force(x) * lever_arm(x), 10000)
}

// The moment capacity by 4.2.2 or 4.2.3, in N·m.
#[tactic(auto, unfolding(crate::specs::Steps::bending_capacity))]
pub fn bending_capacity(x: ValidSection) -> u64
    requires { compression_depth x.section ≡ true }
    ensures { result ≡ bending_capacity x.section }
{
    if compression_yields(x) {
        yielded_capacity(x)
    } else {
        couple_capacity(x)
    }
}
