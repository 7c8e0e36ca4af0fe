// A section under service loads.
#![tactic(auto)]

ghost use Rattle.std.specs.Prelude.{◌≡◌, true, ◌≤◌};
ghost use Rattle.cracking.specs.Bounds.{stress_most};
ghost use Rattle.cracking.specs.Steps.{stress_holds, σ, q};

use crate::{mean_stress, steel_stress};
use section::ValidSection;

// A section with the stress σ of its steel and the mean stress q between cracks, both in 0.0001 N/mm².
#[derive(Clone, Copy)]
pub struct LoadedSection {
    pub valid: ValidSection,
    pub stress: u64,
    pub mean: u64,
    pub ghost stress_is: { stress ≡ σ valid.section },
    pub ghost stress_bound: { stress ≤ stress_most },
    pub ghost mean_is: { mean ≡ q valid.section },
    pub ghost mean_bound: { mean ≤ stress_most },
}

// With the stresses of a section that keeps 4.4.1.
#[tactic(auto, using(crate::proofs::Safe::stress_sizes))]
pub fn loaded_section(x: ValidSection) -> LoadedSection
    requires { stress_holds x.section ≡ true }
    ensures { result.valid ≡ x }
{
    let stress = steel_stress(x);
    LoadedSection {
        valid: x,
        stress,
        mean: mean_stress(x, stress),
    }
}
