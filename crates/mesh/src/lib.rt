// Meshes: the checks in their order, up to the first that fails.
#![tactic(auto)]

ghost use Rattle.std.specs.Prelude.{◌≡◌};
ghost use Rattle.member.specs.Member.{mesh_of};
ghost use Rattle.anchorage.specs.Steps.{anchorage_length};
ghost use Rattle.mesh.specs.Checks.{lap_outcome, mesh_outcome};

use anchorage::anchorage_length;
use lap::lap_length;
use member::ValidMesh;
use outcome::{Check, Outcome, one_figure, two_figures};
use quantity::Length;

// What is left once the anchorage holds: the lap.
#[tactic(auto, unfolding(crate::specs::Checks::lap_outcome))]
fn check_lap(x: ValidMesh, anchorage: Length) -> Outcome
    requires { anchorage.0 ≡ anchorage_length (mesh_of x.mesh) }
    ensures { result ≡ lap_outcome (mesh_of x.mesh) }
{
    let lap = lap_length(x);
    let check = if lap <= x.mesh.lap {
        Check::Passed
    } else {
        Check::Lap
    };
    two_figures(check, anchorage.in_millimetres(), lap.in_millimetres())
}

// The outcome of a mesh (document 01, "Mesh.").
#[tactic(auto, unfolding(crate::specs::Checks::mesh_outcome))]
pub fn check_mesh(x: ValidMesh) -> Outcome
    ensures { result ≡ mesh_outcome (mesh_of x.mesh) }
{
    let anchorage = anchorage_length(x);
    if anchorage <= x.mesh.anchorage {
        check_lap(x, anchorage)
    } else {
        one_figure(Check::Anchorage, anchorage.in_millimetres())
    }
}
