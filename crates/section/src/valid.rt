// Sections with what is known of them.
#![tactic(auto)]

ghost use Rattle.std.specs.Prelude.{◌≡◌, ◌*◌, ◌≤◌};
ghost use Rattle.std.proofs.Props.{props};
ghost use Rattle.member.specs.Member.{beam_of};
ghost use Rattle.member.specs.OneWay.{load_within_prop};
ghost use Rattle.section.specs.Section.{G, S, section_of};
ghost use Rattle.section.specs.Bounded.{Bounded};

use crate::{Section, section_of};
use member::ValidBeam;

// A section whose values lie within their bounds.
#[derive(Clone, Copy)]
pub struct ValidSection {
    pub section: Section,
    pub ghost bounded: { Bounded section } by { Prim.hlevel (props, load_within_prop) },
}

// One with at least 0.2% of steel, as 6.3.1 asks.
#[derive(Clone, Copy)]
pub struct ReinforcedSection {
    pub valid: ValidSection,
    pub ghost reinforced: { G valid.section ≤ 50 * S valid.section },
}

// The section of an accepted beam.
#[tactic(auto, using(crate::proofs::Bounded::bounded))]
pub fn valid_section(x: ValidBeam) -> ValidSection
    ensures { result.section ≡ section_of (beam_of x.beam) }
{
    ValidSection {
        section: section_of(x.beam),
    }
}
