// The lap of a mesh (5.3.7).
#![tactic(auto)]

ghost use Rattle.std.specs.Prelude.{◌≡◌};
ghost use Rattle.member.specs.Member.{mesh_of};
ghost use Rattle.lap.specs.Steps.{lap_row, lap_least, tension_lap, required_lap, lap_length};

use anchorage::basic_length;
use member::ValidMesh;
use quantity::{Length, div_up};

// The row of the lap: "with" cross bar if stacked or nested, "without" if flat.
fn lap_row(lapping: u32) -> u32
    ensures { result ≡ lap_row lapping }
{
    if lapping == 1 { 1 } else { 0 }
}

fn least_lap(lapping: u32) -> u64
    ensures { result ≡ lap_least lapping }
{
    if lapping == 1 { 200 } else { 300 }
}

// 5.3.7 in tension, in hundred-thousandths of a millimetre.
fn tension_lap(x: ValidMesh) -> u64
    ensures { result ≡ tension_lap (mesh_of x.mesh) }
{
    let least = 100000 * least_lap(x.mesh.lapping);
    let basic = basic_length(x, lap_row(x.mesh.lapping), 0);
    let d = x.mesh.d.in_millimetres();
    let lap = least.max(13 * basic);
    if 12 <= d { lap + 500000 * d } else { lap }
}

// 5.3.7, in millionths of a millimetre.
#[tactic(auto, using(crate::proofs::Bounds::tension_most), unfolding(crate::specs::Steps::required_lap))]
fn required_lap(x: ValidMesh) -> u64
    ensures { result ≡ required_lap (mesh_of x.mesh) }
{
    let lap = tension_lap(x);
    if x.mesh.compression == 1 {
        (7 * lap).max(150000000)
    } else {
        10 * lap
    }
}

// 5.3.7: the lap.
#[tactic(auto, unfolding(crate::specs::Steps::lap_length))]
pub fn lap_length(x: ValidMesh) -> Length
    ensures { result.0 ≡ lap_length (mesh_of x.mesh) }
{
    Length::of_millimetres(div_up(required_lap(x), 1000000))
}
