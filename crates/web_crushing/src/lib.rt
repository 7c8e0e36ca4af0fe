// Crushing of the web of a beam.
#![tactic(auto, using(crate::proofs::Bounds::sizes))]

ghost use Rattle.std.specs.Prelude.{◌≡◌};
ghost use Rattle.web_crushing.specs.Steps.{scaled_width, web_holds};

use quantity::clamped;
use section::ValidSection;

// 40·β·b.
fn scaled_width(x: ValidSection) -> u64
    ensures { result ≡ scaled_width x.section }
{
    let b = x.section.b.in_millimetres();
    let h0 = x.section.h0.in_millimetres();
    clamped(8 * b, 10 * b, (14 * b).saturating_sub(h0))
}

// 6.3.1v.
#[tactic(auto, using(crate::proofs::Bounds::sizes), unfolding(crate::specs::Steps::web_holds))]
pub fn web_holds(x: ValidSection) -> bool
    ensures { result ≡ web_holds x.section }
{
    let force_per_mm = scaled_width(x)
        * x.section.parameters.webFactor
        * x.section.concrete.fc.in_tenths();
    12000 * x.section.v.in_newtons() <= force_per_mm * x.section.h0.in_millimetres()
}
