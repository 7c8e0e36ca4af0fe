// The printed words of the checks.
#![tactic(auto)]

ghost use Rattle.std.specs.Prelude.{◌≡◌};
ghost use Rattle.outcome.specs.Outcome.{name_of};

use outcome::Check;

// The printed word of a check.
pub fn name_of(c: Check) -> &'static [u8]
    ensures { result.now ≡ name_of c }
{
    match c {
        Check::Passed => b"OK",
        Check::LeastSteel => b"6.3.1",
        Check::CompressionDepth => b"4.2.2-3",
        Check::Bending => b"4.2.2",
        Check::CoupleBending => b"4.2.3",
        Check::WebCrushing => b"6.3.1v",
        Check::Shear => b"4.3.3",
        Check::LinkSpacing => b"5.5.6s",
        Check::LeastLinks => b"5.5.6r",
        Check::ServiceStress => b"4.4.1",
        Check::CrackWidth => b"4.4.2",
        Check::Deflection => b"4.5.1",
        Check::MostSteel => b"5.6.1",
        Check::ColumnLinks => b"5.6.2",
        Check::Slenderness => b"4.2.4s",
        Check::AxialForce => b"4.2.4",
        Check::Anchorage => b"5.2.5",
        Check::Lap => b"5.3.7",
    }
}
