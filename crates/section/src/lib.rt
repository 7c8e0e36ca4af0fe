// What the checks of a beam use of its fields: dimensions, areas, sums over its bars, and the values of its materials.
#![tactic(auto)]

ghost use Rattle.std.specs.Prelude.{◌≡◌};
ghost use Rattle.member.specs.Member.{beam_of};
ghost use Rattle.member.specs.Accepted.{AcceptedBeam};
ghost use Rattle.section.specs.Section.{section_of};

use code_tables::area_of;
use material::{Concrete, Steel, concrete_of, fyv_of, steel_of};
use member::{Beam, Load, effective_depth};
use parameters::{Parameters, parameters_of};
use quantity::{Force, Length, Stress};
pub use valid::{ReinforcedSection, ValidSection, valid_section};

mod valid;

// Document 01's symbols stand beside the fields.
#[derive(Clone, Copy)]
pub struct Section {
    // b, h, h0 (effective depth), a'
    pub b: Length,
    pub h: Length,
    pub h0: Length,
    pub ac: Length,
    // bf > b
    pub flanged: bool,
    // (bf-b)·hf, mm²
    pub flange: u64,
    // S, S' and L, tenths of mm²
    pub tension: u64,
    pub compression: u64,
    pub links: u64,
    // E (n·d²) and D (n·d) of the tension bars
    pub squares: u64,
    pub diameters: u64,
    // s, c, l0
    pub s: Length,
    pub c: Length,
    pub l0: Length,
    // M and Mq, N·m; V
    pub M: u64,
    pub Mq: u64,
    pub v: Force,
    pub environment: u32,
    pub strict: u32,
    pub concrete: Concrete,
    pub steel: Steel,
    pub fyv: Stress,
    // uniform, or a point load at the distance a
    pub load: Load,
    // α1, βc and ξb
    pub parameters: Parameters,
}

// (bf-b)·hf.
#[tactic(auto, unfolding(crate::specs::Section::section_of))]
fn flange_area(x: Beam) -> u64
    requires { AcceptedBeam (beam_of x) }
    ensures { result ≡ (section_of (beam_of x)).flange }
{
    (x.bf.in_millimetres() - x.b.in_millimetres()) * x.hf.in_millimetres()
}

// L, legs times area.
#[tactic(auto, unfolding(crate::specs::Section::section_of))]
fn link_area(x: Beam) -> u64
    ensures { result ≡ (section_of (beam_of x)).links }
{
    x.legs as u64 * area_of(x.link) as u64
}

// The section of an accepted beam.
#[tactic(auto, unfolding(crate::specs::Section::section_of))]
pub fn section_of(x: Beam) -> Section
    requires { AcceptedBeam (beam_of x) }
    ensures { result ≡ section_of (beam_of x) }
{
    let bars = x.tension.totals();
    Section {
        b: x.b,
        h: x.h,
        h0: effective_depth(x),
        ac: x.ac,
        flanged: x.b < x.bf,
        flange: flange_area(x),
        tension: bars.area,
        compression: x.compression.steel_area(),
        links: link_area(x),
        squares: bars.squares,
        diameters: bars.diameters,
        s: x.s,
        c: x.c,
        l0: x.l0,
        M: x.M,
        Mq: x.Mq,
        v: x.v,
        environment: x.environment,
        strict: x.strict,
        concrete: concrete_of(x.concrete),
        steel: steel_of(x.steel),
        fyv: fyv_of(x.linkSteel),
        load: x.load,
        parameters: parameters_of(x.concrete, x.steel),
    }
}
