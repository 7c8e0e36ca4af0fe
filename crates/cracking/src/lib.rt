// Cracking of a beam under service loads: steel stress (4.4.1), crack width (4.4.2).
#![tactic(auto)]

ghost use Rattle.std.specs.Prelude.{◌≡◌, true, ◌*◌, ◌≤◌};
ghost use Rattle.section.specs.Section.{G, W, S};
ghost use Rattle.cracking.specs.Bounds.{stress_most, spacing_most};
ghost use Rattle.cracking.specs.Steps.{stress_holds, steel_stress, stiffening, mean_stress, crack_spacing, width_of, σ, q, crack_width, width_limit};

pub use loaded::{LoadedSection, loaded_section};
use quantity::{branchless_clamped, div_down, div_up};
use section::ValidSection;

mod loaded;

// 4.4.1.
#[tactic(auto, unfolding(crate::specs::Steps::stress_holds))]
pub fn stress_holds(x: ValidSection) -> bool
    ensures { result ≡ stress_holds x.section }
{
    1000000 * x.section.Mq
        <= 87 * x.section.steel.fyk.in_units() * x.section.h0.in_millimetres() * x.section.tension
}

#[tactic(auto, unfolding(crate::specs::Steps::steel_stress))]
fn steel_stress_of(mq: u64, h0: u64, s: u64) -> u64
    requires { (mq ≤ 100000000) × (1 ≤ h0) × (h0 ≤ 2000) × (1 ≤ s) × (s ≤ 800000) }
    ensures { result ≡ steel_stress mq h0 s }
{
    div_up(10000000000 * mq, 87 * h0 * s)
}

// σ, 0.0001 N/mm².
pub fn steel_stress(x: ValidSection) -> u64
    requires { stress_holds x.section ≡ true }
    ensures { result ≡ σ x.section }
{
    steel_stress_of(
        x.section.Mq,
        x.section.h0.in_millimetres(),
        x.section.tension,
    )
}

#[tactic(auto, unfolding(crate::specs::Steps::stiffening))]
fn stiffening_of(ftk: u64, w: u64, s: u64) -> u64
    requires { (ftk ≤ 400) × (w ≤ 10000000) × (1 ≤ s) }
    ensures { result ≡ stiffening ftk w s }
{
    div_down(325 * ftk * w, s)
}

#[tactic(auto, unfolding(crate::specs::Steps::mean_stress))]
fn mean_stress_of(stress: u64, taken: u64) -> u64
    requires { stress ≤ stress_most }
    ensures { result ≡ mean_stress stress taken }
{
    let fifth = div_up(stress, 5);
    let more = div_up(11 * stress, 10);
    stress.min(fifth.max(more.saturating_sub(taken)))
}

// W = 2·Ate, mm².
fn twice_tension_area(x: ValidSection) -> u64
    ensures { result ≡ W x.section }
{
    x.section.b.in_millimetres() * x.section.h.in_millimetres() + 2 * x.section.flange
}

// q, the mean stress between cracks, from σ.
#[tactic(auto, unfolding(crate::specs::Steps::q))]
pub fn mean_stress(x: ValidSection, stress: u64) -> u64
    requires { (stress ≡ σ x.section) × (stress ≤ stress_most) }
    ensures { result ≡ q x.section }
{
    mean_stress_of(
        stress,
        stiffening_of(
            x.section.concrete.ftk.in_hundredths(),
            twice_tension_area(x),
            x.section.tension,
        ),
    )
}

#[tactic(auto, unfolding(crate::specs::Steps::crack_spacing))]
fn crack_spacing_of(c: u32, e: u64, w: u64, d: u64, s: u64) -> u64
    requires { (e ≤ 50 * d) × (w ≤ 100 * s) × (w ≤ 10000000) × (1 ≤ d) × (d ≤ 2000) × (1 ≤ s) × (s ≤ 800000) }
    ensures { result ≡ crack_spacing c e w d s }
{
    190 * branchless_clamped(20, 65, c) as u64 + div_up(40 * e * w, d * s)
}

#[tactic(auto, unfolding(crate::specs::Steps::width_of))]
fn width_of(mean: u64, spacing: u64) -> u64
    requires { (mean ≤ stress_most) × (spacing ≤ spacing_most) }
    ensures { result ≡ width_of mean spacing }
{
    div_up(19 * mean * spacing, 2000000000)
}

// 4.4.2: the crack width, 0.001 mm, from q. It takes q and no loaded section, whose bound on σ it does not ask for.
#[tactic(auto, unfolding(crate::specs::Steps::crack_width))]
pub fn crack_width(x: ValidSection, mean: u64) -> u64
    requires { (G x.section ≤ 50 * S x.section) × (mean ≡ q x.section) × (mean ≤ stress_most) }
    ensures { result ≡ crack_width x.section }
{
    let cover = x.section.c.in_millimetres() as u32;
    let spacing = crack_spacing_of(
        cover,
        x.section.squares,
        twice_tension_area(x),
        x.section.diameters,
        x.section.tension,
    );
    width_of(mean, spacing)
}

// Its limit in this environment.
#[tactic(auto, unfolding(crate::specs::Steps::width_limit))]
pub fn width_limit(environment: u32) -> u64
    ensures { result ≡ width_limit environment }
{
    if environment == 1 { 300 } else { 200 }
}
