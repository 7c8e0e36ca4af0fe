// The checks of a beam.
#![tactic(auto)]

ghost use Rattle.std.specs.Prelude.{◌≡◌, true, if◌then◌else◌};
ghost use Rattle.member.specs.Member.{beam_of};
ghost use Rattle.bending.specs.Steps.{compression_depth};
ghost use Rattle.beam.specs.Checks.{from_least_links, from_spacing, from_shear, from_bending, from_depth, section_outcome, beam_outcome};

use bending::{bending_capacity, compression_depth, compression_yields, least_steel};
use member::ValidBeam;
use outcome::{Check, Outcome, no_figure, one_figure, two_figures};
use section::{ReinforcedSection, ValidSection, valid_section};
use serviceability::from_stress;
use shear::{ShearResult, check_shear, least_links, link_spacing};

// 5.5.6r.
#[tactic(auto, unfolding(crate::specs::Checks::from_least_links))]
fn from_least_links(x: ReinforcedSection, moment: u64, shear: u64) -> Outcome
    ensures { result ≡ from_least_links x.valid.section moment shear }
{
    if least_links(x.valid) {
        from_stress(x, moment, shear)
    } else {
        two_figures(Check::LeastLinks, moment, shear)
    }
}

// 5.5.6s.
#[tactic(auto, unfolding(crate::specs::Checks::from_spacing))]
fn from_spacing(x: ReinforcedSection, moment: u64, shear: u64) -> Outcome
    ensures { result ≡ from_spacing x.valid.section moment shear }
{
    if link_spacing(x.valid) {
        from_least_links(x, moment, shear)
    } else {
        two_figures(Check::LinkSpacing, moment, shear)
    }
}

// 6.3.1v, then 4.3.3.
#[tactic(auto, unfolding(crate::specs::Checks::from_shear))]
fn from_shear(x: ReinforcedSection, moment: u64) -> Outcome
    ensures { result ≡ from_shear x.valid.section moment }
{
    match check_shear(x.valid) {
        ShearResult::AboveWebLimit => one_figure(Check::WebCrushing, moment),
        ShearResult::AboveCapacity(shear) => two_figures(Check::Shear, moment, shear.in_newtons()),
        ShearResult::WithinBoth(shear) => from_spacing(x, moment, shear.in_newtons()),
    }
}

// 4.2.2 or 4.2.3.
#[tactic(auto, unfolding(crate::specs::Checks::from_bending))]
fn from_bending(x: ReinforcedSection) -> Outcome
    requires { compression_depth x.valid.section ≡ true }
    ensures { result ≡ from_bending x.valid.section }
{
    let moment = bending_capacity(x.valid);
    if x.valid.section.M <= moment {
        from_shear(x, moment)
    } else {
        one_figure(bending_check(compression_yields(x.valid)), moment)
    }
}

// The bending check by its name: 4.2.2, or 4.2.3.
fn bending_check(yields: bool) -> Check
    ensures { result ≡ (if yields then Check.Bending else Check.CoupleBending) }
{
    if yields {
        Check::Bending
    } else {
        Check::CoupleBending
    }
}

// 4.2.2-3.
#[tactic(auto, unfolding(crate::specs::Checks::from_depth))]
fn from_depth(x: ReinforcedSection) -> Outcome
    ensures { result ≡ from_depth x.valid.section }
{
    if compression_depth(x.valid) {
        from_bending(x)
    } else {
        no_figure(Check::CompressionDepth)
    }
}

// 6.3.1 and what follows.
#[tactic(auto, unfolding(crate::specs::Checks::section_outcome))]
fn check_section(x: ValidSection) -> Outcome
    ensures { result ≡ section_outcome x.section }
{
    if least_steel(x) {
        from_depth(ReinforcedSection { valid: x })
    } else {
        no_figure(Check::LeastSteel)
    }
}

// The checks of an accepted beam.
#[tactic(auto, unfolding(crate::specs::Checks::beam_outcome))]
pub fn check_beam(x: ValidBeam) -> Outcome
    ensures { result ≡ beam_outcome (beam_of x.beam) }
{
    check_section(valid_section(x))
}
