// What the checks of a beam use of its concrete and its steel together: stress factor, web factor and depth limit.
#![tactic(auto)]

ghost use Rattle.std.specs.Prelude.{◌≡◌, true, ◌-◌, ◌≤◌};
ghost use Rattle.table.specs.Table.{listed};
ghost use Rattle.material.specs.Concrete.{concretes};
ghost use Rattle.material.specs.Steel.{steels, steel_of};
ghost use Rattle.material.specs.Bounds.{UsableSteel};
ghost use Rattle.parameters.specs.Parameters.{limit_of, depth_limit, parameters_of};

use material::{Steel, steel_of};

// A depth limit ξb as a fraction.
#[derive(Clone, Copy)]
pub struct DepthLimit {
    pub num: u64,
    pub den: u64,
}

// α1 in hundredths, βc in thirtieths, ξb.
#[derive(Clone, Copy)]
pub struct Parameters {
    pub stressFactor: u64,
    pub webFactor: u64,
    pub depthLimit: DepthLimit,
}

// How far a grade lies above C50.
fn above_c50(grade: u32) -> u64
    ensures { result ≡ grade - 50 }
{
    (grade as u64).saturating_sub(50)
}

// e up to C50, GB 6.2.7's fraction above it.
fn depth_limit(grade: u32, steel: Steel) -> DepthLimit
    requires { (grade ≤ 100) × UsableSteel steel }
    ensures { result ≡ limit_of (depth_limit grade steel) }
{
    if grade <= 50 {
        return DepthLimit {
            num: steel.depthLimit as u64,
            den: 100,
        };
    }
    let above = above_c50(grade);
    // Es·εcu, N/mm²
    let stress = 2 * (330 - above);
    DepthLimit {
        num: (80 - above / 5) * stress,
        den: 100 * (stress + steel.fy.in_units()),
    }
}

// The parameters for a grade of concrete and a steel of the tables.
pub fn parameters_of(grade: u32, code: u32) -> Parameters
    requires { (listed grade concretes ≡ true) × (listed code steels ≡ true) }
    ensures { result ≡ parameters_of grade (steel_of code) }
{
    let grades = above_c50(grade) / 5;
    Parameters {
        stressFactor: 100 - grades,
        webFactor: 30 - grades,
        depthLimit: depth_limit(grade, steel_of(code)),
    }
}
