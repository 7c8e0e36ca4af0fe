// Questions 9 and 10: the number of bars, and the steel ratio of a beam.
#![tactic(auto)]

ghost use Rattle.std.specs.Prelude.{◌≡◌};
ghost use Rattle.member.specs.Member.{beam_of, column_of};
ghost use Rattle.reinforcement.specs.Reinforcement.{beam_bars, beam_ratio, column_bars};
ghost use Rattle.bars.specs.Accepted.{AcceptedGroups};

use member::{Column, RangedBeam, effective_depth};

// 9, of a beam.
#[tactic(auto, unfolding(crate::specs::Reinforcement::beam_bars))]
pub fn beam_bars(x: RangedBeam) -> bool
    ensures { result ≡ beam_bars (beam_of x.beam) }
{
    x.beam.tension.bar_count() <= 40 && x.beam.compression.bar_count() <= 40
}

// 10, of a beam.
#[tactic(auto, unfolding(crate::specs::Reinforcement::beam_ratio))]
pub fn beam_ratio(x: RangedBeam) -> bool
    ensures { result ≡ beam_ratio (beam_of x.beam) }
{
    let b = x.beam.b.in_millimetres();
    5 * x.beam.tension.steel_area() <= 2 * b * effective_depth(x.beam).in_millimetres()
}

// 9, of a column.
#[tactic(auto, unfolding(crate::specs::Reinforcement::column_bars))]
pub fn column_bars(x: Column) -> bool
    requires { AcceptedGroups (column_of x).groups }
    ensures { result ≡ column_bars (column_of x) }
{
    x.groups.bar_count() <= 40
}
