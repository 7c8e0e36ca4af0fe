// The totals of groups of bars that a caller lends, or question 7.
#![tactic(auto)]

ghost use Rattle.std.specs.Prelude.{◌≡◌, true};
ghost use Rattle.bars.specs.Listed.{groups_in};
ghost use Rattle.lent_groups.specs.LentGroups.{group_holds, groups_hold};
ghost use Rattle.totals.specs.Totals.{totals_given, totals_refused, bar_totals};

use bars::{Group, Groups};
use field_domain::{is_group_bars, is_group_diameter};
use question::Question;

// Question 0 says that the totals were given: number of bars, their area (tenths of mm²), n·d (mm) and n·d² (mm²) summed.
// 7 says that the count is above 4 or above the list's length, or that a group is out of range.
#[repr(C)]
#[derive(Clone, Copy)]
pub struct BarTotals {
    pub question: u32,
    pub member: u32,
    pub bars: u64,
    pub area: u64,
    pub diameters: u64,
    pub squares: u64,
}

fn group_holds(g: Group) -> bool
    ensures { result ≡ group_holds g }
{
    is_group_diameter(g.diameter) && is_group_bars(g.bars)
}

// Question 7 of groups.
fn groups_hold(groups: &[Group]) -> bool
    ensures { result ≡ groups_hold groups.now }
{
    groups.iter().all(|g| group_holds(*g))
}

#[tactic(auto, using(lent_groups::proofs::Named::held_accepted))]
fn totals_given(groups: Groups) -> BarTotals
    requires { groups_hold (groups_in groups) ≡ true }
    ensures { result ≡ totals_given (groups_in groups) }
{
    let t = groups.totals();
    BarTotals {
        question: 0,
        member: 0,
        bars: t.bars,
        area: t.area,
        diameters: t.diameters,
        squares: t.squares,
    }
}

fn totals_refused() -> BarTotals
    ensures { result ≡ totals_refused }
{
    BarTotals {
        question: Question::Field.into(),
        member: 1,
        bars: 0,
        area: 0,
        diameters: 0,
        squares: 0,
    }
}

// The totals of groups copied out of a list.
#[tactic(auto, using(crate::proofs::Totals::four_hold), unfolding(crate::specs::Totals::bar_totals))]
pub fn copied_totals(groups: Groups) -> BarTotals
    ensures { result ≡ bar_totals groups.count groups.list }
{
    if groups.count <= 4 && groups_hold(groups.items()) {
        totals_given(groups)
    } else {
        totals_refused()
    }
}
