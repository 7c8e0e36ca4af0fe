// What a field may hold, and question 7 of one field.
#![tactic(auto)]

ghost use Rattle.std.specs.Prelude.{◌≡◌, ◌<◌, ltb, get_or};
ghost use Rattle.field_domain.specs.Domain.{in_range, bar, group_diameter, group_bars, holds, is_present, field_holds};

use code_tables::area_of;
use material::{is_grade, is_link_steel, is_steel};

// What a field may hold.
#[derive(Clone, Copy)]
pub enum Domain {
    // from the first number to the second
    Range(u32, u32),
    // 0, or from the first number to the second
    ZeroOr(u32, u32),
    // a bar of the table, from the first diameter to the second
    Bar(u32, u32),
    // a grade of concrete, a steel of bars, a steel of links
    Grade,
    Steel,
    LinkSteel,
    // a group's diameter and its number of bars: the slot of its count, and its place in the list from 0
    GroupDiameter(u32, u32),
    GroupBars(u32, u32),
}

pub fn in_range(lo: u32, hi: u32, x: u32) -> bool
    ensures { result ≡ in_range lo hi x }
{
    lo <= x && x <= hi
}

fn is_bar(lo: u32, hi: u32, x: u32) -> bool
    ensures { result ≡ bar lo hi x }
{
    in_range(lo, hi, x) && 0 < area_of(x)
}

// A group's diameter.
pub fn is_group_diameter(x: u32) -> bool
    ensures { result ≡ group_diameter x }
{
    is_bar(6, 50, x)
}

// A group's number of bars.
pub fn is_group_bars(x: u32) -> bool
    ensures { result ≡ group_bars x }
{
    in_range(1, 20, x)
}

// Question 7 of a field that holds x.
#[tactic(auto, unfolding(crate::specs::Domain::holds))]
pub fn domain_holds(d: Domain, x: u32) -> bool
    ensures { result ≡ holds d x }
{
    match d {
        Domain::Range(lo, hi) => in_range(lo, hi, x),
        Domain::ZeroOr(lo, hi) => x == 0 || in_range(lo, hi, x),
        Domain::Bar(lo, hi) => is_bar(lo, hi, x),
        Domain::Grade => is_grade(x),
        Domain::Steel => is_steel(x),
        Domain::LinkSteel => is_link_steel(x),
        Domain::GroupDiameter(_, _) => is_group_diameter(x),
        Domain::GroupBars(_, _) => is_group_bars(x),
    }
}

// Whether a list whose count stands in slot `count` has a group at `place`.
fn has_group(v: &[u32; 40], count: u32, place: u32) -> bool
    ensures { result ≡ ltb place (get_or v.now count 0) }
{
    v.get(count as usize).is_some_and(|n| place < *n)
}

// Whether the field is there: a group past its count is not.
#[tactic(auto, unfolding(crate::specs::Domain::is_present))]
pub fn field_present(d: Domain, v: &[u32; 40]) -> bool
    ensures { result ≡ is_present d v.now }
{
    match d {
        Domain::GroupDiameter(count, place) | Domain::GroupBars(count, place) => {
            has_group(v, count, place)
        }
        _ => true,
    }
}

// Question 7 of the field in slot i.
#[tactic(auto, unfolding(crate::specs::Domain::field_holds))]
pub fn slot_holds(d: Domain, i: usize, v: &[u32; 40]) -> bool
    requires { i < 40 }
    ensures { result ≡ field_holds d i v.now }
{
    !field_present(d, v) || domain_holds(d, v[i])
}
