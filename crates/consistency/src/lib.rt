// Question 8: whether the fields of a member fit each other.
#![tactic(auto)]

ghost use Rattle.std.specs.Prelude.{◌≡◌};
ghost use Rattle.member.specs.Member.{beam_of, column_of, mesh_of};
ghost use Rattle.consistency.specs.Consistency.{flange_fits, compression_fits, depth_fits, load_fits, beam_consistent, column_consistent, mesh_consistent};

use member::{Beam, Column, Load, Mesh, RangedBeam, effective_depth};
use quantity::Length;

// 8, the flange: bf ≥ b; hf = 0 if bf = b, else 1 ≤ hf ≤ h/2.
#[tactic(auto, unfolding(crate::specs::Consistency::flange_fits))]
fn flange_fits(x: RangedBeam) -> bool
    ensures { result ≡ flange_fits (beam_of x.beam) }
{
    let hf = x.beam.hf.in_millimetres();
    if x.beam.bf == x.beam.b {
        hf == 0
    } else {
        x.beam.b < x.beam.bf && 1 <= hf && 2 * hf <= x.beam.h.in_millimetres()
    }
}

// 8, the compression steel: a' = 0 exactly without its groups.
#[tactic(auto, unfolding(crate::specs::Consistency::compression_fits))]
fn compression_fits(x: Beam) -> bool
    ensures { result ≡ compression_fits (beam_of x) }
{
    let ac = x.ac.in_millimetres();
    if x.compression.items().is_empty() {
        ac == 0
    } else {
        0 < ac
    }
}

// 8, the depth: as + a' ≤ h/2; c < as; l0 ≤ 30·h0.
#[tactic(auto, unfolding(crate::specs::Consistency::depth_fits))]
fn depth_fits(x: RangedBeam) -> bool
    ensures { result ≡ depth_fits (beam_of x.beam) }
{
    let at = x.beam.at.in_millimetres();
    2 * (at + x.beam.ac.in_millimetres()) <= x.beam.h.in_millimetres()
        && x.beam.c < x.beam.at
        && x.beam.l0.in_millimetres() <= 30 * effective_depth(x.beam).in_millimetres()
}

// 8, the point load of kind 4: a ≤ l0.
#[tactic(auto, unfolding(crate::specs::Consistency::load_fits))]
fn load_fits(load: Load, l0: Length) -> bool
    ensures { result ≡ load_fits load l0.0 }
{
    match load {
        Load::Uniform => true,
        Load::Point(a) => a <= l0,
    }
}

// 8, of a beam.
#[tactic(auto, unfolding(crate::specs::Consistency::beam_consistent))]
pub fn beam_consistent(x: RangedBeam) -> bool
    ensures { result ≡ beam_consistent (beam_of x.beam) }
{
    flange_fits(x) && compression_fits(x.beam) && depth_fits(x) && load_fits(x.beam.load, x.beam.l0)
}

// 8, of a column: b ≤ h.
#[tactic(auto, unfolding(crate::specs::Consistency::column_consistent))]
pub fn column_consistent(x: Column) -> bool
    ensures { result ≡ column_consistent (column_of x) }
{
    x.b <= x.h
}

// 8, of a mesh: apart = 0 unless cross bar = 0.
#[tactic(auto, unfolding(crate::specs::Consistency::mesh_consistent))]
pub fn mesh_consistent(x: Mesh) -> bool
    ensures { result ≡ mesh_consistent (mesh_of x) }
{
    x.apart == 0 || x.cross == 0
}
