// The governing utilization.
#![tactic(auto)]

ghost use Rattle.std.specs.Prelude.{◌≡◌};
ghost use Rattle.governing.specs.Governing.{including, Governs};

use ratio::Utilization;

// One more, which counts where it was reached.
fn include(g: Option<f64>, reached: bool, value: f64) -> Option<f64>
    ensures { result ≡ including g reached value }
{
    if !reached {
        return g;
    }
    match g {
        Some(most) => Some(if most < value { value } else { most }),
        None => Some(value),
    }
}

// The largest of the utilizations that were reached, or none.
pub fn governing_of(u: Utilization) -> Option<f64>
    ensures { Governs u result }
{
    let a = include(None, u.firstReached, u.first);
    let b = include(a, u.secondReached, u.second);
    let c = include(b, u.thirdReached, u.third);
    include(c, u.fourthReached, u.fourth)
}
