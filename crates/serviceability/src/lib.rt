// The checks of a beam under service loads.
#![tactic(auto)]

ghost use Rattle.std.specs.Prelude.{◌≡◌, true, if◌then◌else◌};
ghost use Rattle.cracking.specs.Steps.{stress_holds};
ghost use Rattle.serviceability.specs.Checks.{from_deflection, from_width, from_stress};

use cracking::{LoadedSection, crack_width, loaded_section, stress_holds, width_limit};
use deflection::{deflection_figure, deflection_holds};
use outcome::{Check, Outcome, four_figures, three_figures, two_figures};
use section::ReinforcedSection;

// OK, or the last check.
fn last_check(holds: bool) -> Check
    ensures { result ≡ (if holds then Check.Passed else Check.Deflection) }
{
    if holds {
        Check::Passed
    } else {
        Check::Deflection
    }
}

// 4.5.1, and OK where it holds.
#[tactic(auto, using(deflection::proofs::Bounds::deflection_most_lem), unfolding(crate::specs::Checks::from_deflection))]
fn from_deflection(x: LoadedSection, moment: u64, shear: u64, width: u64) -> Outcome
    ensures { result ≡ from_deflection x.valid.section moment shear width }
{
    let figure = deflection_figure(x);
    four_figures(
        last_check(deflection_holds(x.valid, figure)),
        moment,
        shear,
        width,
        figure,
    )
}

// 4.4.2.
#[tactic(auto, unfolding(crate::specs::Checks::from_width))]
fn from_width(x: ReinforcedSection, moment: u64, shear: u64) -> Outcome
    requires { stress_holds x.valid.section ≡ true }
    ensures { result ≡ from_width x.valid.section moment shear }
{
    let loaded = loaded_section(x.valid);
    let width = crack_width(x.valid, loaded.mean);
    if width <= width_limit(x.valid.section.environment) {
        from_deflection(loaded, moment, shear, width)
    } else {
        three_figures(Check::CrackWidth, moment, shear, width)
    }
}

// 4.4.1.
#[tactic(auto, unfolding(crate::specs::Checks::from_stress))]
pub fn from_stress(x: ReinforcedSection, moment: u64, shear: u64) -> Outcome
    ensures { result ≡ from_stress x.valid.section moment shear }
{
    if stress_holds(x.valid) {
        from_width(x, moment, shear)
    } else {
        two_figures(Check::ServiceStress, moment, shear)
    }
}
