// Deflection of a beam (4.5.1).
#![tactic(auto)]

ghost use Rattle.std.specs.Prelude.{◌≡◌, ◌*◌, ◌≤◌};
ghost use Rattle.section.specs.Section.{b, h₀, S, Ec};
ghost use Rattle.cracking.specs.Bounds.{stress_most};
ghost use Rattle.deflection.specs.Bounds.{flexibility_most, curvature_most, deflection_most};
ghost use Rattle.deflection.specs.Steps.{flexibility, curvature, short_term, long_term, deflection, by_span, span_divisor, deflection_holds};

use cracking::LoadedSection;
use quantity::{Length, div_down, div_up};
use section::ValidSection;

#[tactic(auto, unfolding(crate::specs::Steps::flexibility))]
fn flexibility_of(s: u64, ec: u64, b: u64, h0: u64) -> u64
    requires { (1 ≤ s) × (s ≤ 800000) × (25500 ≤ ec) × (ec ≤ 40000) × (b ≤ 1000) × (h0 ≤ 2000) × (5 * s ≤ 2 * b * h0) }
    ensures { result ≡ flexibility s ec b h0 }
{
    200000 + div_up(120000000000 * s, ec * b * h0)
}

#[tactic(auto, unfolding(crate::specs::Steps::curvature))]
fn curvature_of(mean: u64, z: u64, stress: u64) -> u64
    requires { (mean ≤ stress_most) × (z ≤ flexibility_most) × (stress ≤ stress_most) }
    ensures { result ≡ curvature mean z stress }
{
    div_up(115 * mean, 100) + div_up(z * stress, 1000000)
}

#[tactic(auto, unfolding(crate::specs::Steps::short_term))]
fn short_term_of(l0: u64, h0: u64, r: u64) -> u64
    requires { (l0 ≤ 12000) × (l0 ≤ 30 * h0) × (1 ≤ h0) × (h0 ≤ 2000) × (r ≤ curvature_most) }
    ensures { result ≡ short_term l0 h0 r }
{
    div_up(29 * (l0 * l0) * r, 6400 * h0)
}

#[tactic(auto, unfolding(crate::specs::Steps::long_term))]
fn long_term_of(s: u64, sc: u64, flanged: bool) -> u64
    requires { (1 ≤ s) × (s ≤ 800000) }
    ensures { result ≡ long_term s sc flanged }
{
    let theta = 2000000_u64.saturating_sub(div_down(400000 * s.min(sc), s));
    if flanged { div_up(6 * theta, 5) } else { theta }
}

// The curvature's factor of the section.
fn section_curvature(x: LoadedSection) -> u64
    ensures { let y = x.valid.section in result ≡ curvature x.mean (flexibility (S y) (Ec y) (b y) (h₀ y)) x.stress }
{
    let section = x.valid.section;
    let z = flexibility_of(
        section.tension,
        section.concrete.ec.in_units(),
        section.b.in_millimetres(),
        section.h0.in_millimetres(),
    );
    curvature_of(x.mean, z, x.stress)
}

// 4.5.1: the deflection, 0.01 mm.
pub fn deflection_figure(x: LoadedSection) -> u64
    ensures { result ≡ deflection x.valid.section }
{
    let section = x.valid.section;
    let r = section_curvature(x);
    let u = short_term_of(section.l0.in_millimetres(), section.h0.in_millimetres(), r);
    let theta = long_term_of(section.tension, section.compression, section.flanged);
    div_up(u * theta, 1000000000000)
}

fn by_span(l0: u64, below: u64, to: u64, above: u64) -> u64
    ensures { result ≡ by_span l0 below to above }
{
    match l0 {
        0..=6999 => below,
        7000..=9000 => to,
        _ => above,
    }
}

// The deflection is held to l0 over this.
#[tactic(auto, unfolding(crate::specs::Steps::span_divisor))]
pub fn span_divisor(l0: Length, strict: u32) -> u64
    ensures { result ≡ span_divisor l0.0 strict }
{
    let span = l0.in_millimetres();
    if strict == 1 {
        by_span(span, 250, 300, 400)
    } else {
        by_span(span, 200, 250, 300)
    }
}

// Whether the deflection, as a figure, keeps its limit.
#[tactic(auto, unfolding(crate::specs::Steps::deflection_holds))]
pub fn deflection_holds(x: ValidSection, figure: u64) -> bool
    requires { (figure ≡ deflection x.section) × (figure ≤ deflection_most) }
    ensures { result ≡ deflection_holds x.section }
{
    figure * span_divisor(x.section.l0, x.section.strict) <= 100 * x.section.l0.in_millimetres()
}
