// Members of a schedule by value: beams, columns and meshes with their groups of bars.
#![tactic(auto)]

ghost use Rattle.std.specs.Prelude.{◌≡◌};
ghost use Rattle.member.specs.Member.{h₀, beam_of};

use bars::Groups;
use quantity::{Force, Length};
pub use valid::{RangedBeam, ValidBeam, ValidColumn, ValidMesh};

mod valid;

// The load of a beam: uniform (kind 1), or mostly one load, at the distance a from the support (kind 4).
#[derive(Clone, Copy)]
pub enum Load {
    Uniform,
    Point(Length),
}

// Kinds 1 and 4.
#[derive(Clone, Copy)]
pub struct Beam {
    pub b: Length,
    pub h: Length,
    pub bf: Length,
    pub hf: Length,
    // as and a': distances of the tension and the compression steel from their faces
    pub at: Length,
    pub ac: Length,
    pub concrete: u32,
    pub steel: u32,
    pub tension: Groups,
    pub compression: Groups,
    // links: diameter, legs, spacing, steel
    pub link: u32,
    pub legs: u32,
    pub s: Length,
    pub linkSteel: u32,
    pub c: Length,
    pub l0: Length,
    // moments, N·m
    pub M: u64,
    pub Mq: u64,
    pub v: Force,
    pub environment: u32,
    pub strict: u32,
    pub load: Load,
}

// Kind 2.
#[derive(Clone, Copy)]
pub struct Column {
    pub b: Length,
    pub h: Length,
    pub concrete: u32,
    pub steel: u32,
    pub groups: Groups,
    pub link: u32,
    pub s: Length,
    pub l0: Length,
    pub N: Force,
}

// Kind 3. The last two are the lengths given.
#[derive(Clone, Copy)]
pub struct Mesh {
    pub family: u32,
    pub concrete: u32,
    pub d: Length,
    pub cross: u32,
    pub paired: u32,
    pub apart: u32,
    pub seismic: u32,
    pub lapping: u32,
    pub compression: u32,
    pub anchorage: Length,
    pub lap: Length,
}

// h0 = h - as.
pub fn effective_depth(x: Beam) -> Length
    ensures { result.0 ≡ h₀ (beam_of x) }
{
    x.h.saturating_sub(x.at)
}
