// Question 14: the service moment of a beam against its design moment.
#![tactic(auto)]

ghost use Rattle.std.specs.Prelude.{◌≡◌};
ghost use Rattle.member.specs.Member.{beam_of};
ghost use Rattle.service_moment.specs.ServiceMoment.{service_moment_fits};

use member::Beam;

// 14, of a beam: Mq ≤ M.
#[tactic(auto, unfolding(crate::specs::ServiceMoment::service_moment_fits))]
pub fn service_moment_fits(x: Beam) -> bool
    ensures { result ≡ service_moment_fits (beam_of x) }
{
    x.Mq <= x.M
}
