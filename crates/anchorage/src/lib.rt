// The anchorage of a mesh (5.2.5).
#![tactic(auto)]

ghost use Rattle.std.specs.Prelude.{◌≡◌, ◌≤◌};
ghost use Rattle.member.specs.Member.{mesh_of};
ghost use Rattle.anchorage.specs.Steps.{paired_tenths, apart_tenths, seismic_hundredths, basic_length, anchorage_length};

use code_tables::multiple_of;
use member::ValidMesh;
use quantity::{Length, div_up};

// 1.15 for seismic 1 and 2, 1.05 for 3, in hundredths.
fn seismic_factor(seismic: u32) -> u64
    ensures { result ≡ seismic_hundredths seismic }
{
    match seismic {
        1 | 2 => 115,
        3 => 105,
        _ => 100,
    }
}

// In tenths: 1.4 if paired.
fn paired_factor(paired: u32) -> u64
    ensures { result ≡ paired_tenths paired }
{
    if paired == 1 { 14 } else { 10 }
}

// In tenths: 0.8 if apart.
fn apart_factor(apart: u32) -> u64
    ensures { result ≡ apart_tenths apart }
{
    if apart == 1 { 8 } else { 10 }
}

// 5.2.5 from the row `cross`, in ten-thousandths of a millimetre.
pub fn basic_length(x: ValidMesh, cross: u32, apart: u32) -> u64
    requires { cross ≤ 1 }
    ensures { result ≡ basic_length cross apart (mesh_of x.mesh) }
{
    let multiple = multiple_of(x.mesh.family, cross, x.mesh.concrete) as u64;
    let plain = multiple
        * x.mesh.d.in_millimetres()
        * paired_factor(x.mesh.paired)
        * apart_factor(apart);
    plain.max(20000) * seismic_factor(x.mesh.seismic)
}

// 5.2.5: the anchorage.
#[tactic(auto, unfolding(crate::specs::Steps::anchorage_length))]
pub fn anchorage_length(x: ValidMesh) -> Length
    ensures { result.0 ≡ anchorage_length (mesh_of x.mesh) }
{
    Length::of_millimetres(div_up(basic_length(x, x.mesh.cross, x.mesh.apart), 10000))
}
