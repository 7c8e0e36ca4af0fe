// The axial capacity of a column (4.2.4), and the checks that it rests on: 5.6.1 and 4.2.4s.
#![tactic(auto)]

ghost use Rattle.std.specs.Prelude.{◌≡◌, true, ◌*◌, ◌≤◌};
ghost use Rattle.member.specs.Member.{column_of};
ghost use Rattle.axial.specs.Steps.{gross_area, steel_area, steel_fits, slenderness_fits, concrete_area, squash_load, axial_capacity};

pub use given::GivenColumn;
use member::ValidColumn;
use quantity::{Force, div_down};
use stability::stability_of;

mod given;

// S, in tenths of mm².
fn bars_area(x: ValidColumn) -> u64
    ensures { result ≡ steel_area (column_of x.column) }
{
    x.column.groups.steel_area()
}

// A, in mm².
#[tactic(auto, using(crate::proofs::Bounds::gross_most))]
fn gross_area(x: ValidColumn) -> u64
    ensures { result ≡ gross_area (column_of x.column) }
{
    x.column.b.in_millimetres() * x.column.h.in_millimetres()
}

// 5.6.1.
#[tactic(auto, unfolding(crate::specs::Steps::steel_fits))]
pub fn steel_fits(x: ValidColumn) -> bool
    ensures { result ≡ steel_fits (column_of x.column) }
{
    2 * bars_area(x) <= gross_area(x)
}

// 4.2.4s.
#[tactic(auto, unfolding(crate::specs::Steps::slenderness_fits))]
pub fn slenderness_fits(x: ValidColumn) -> bool
    ensures { result ≡ slenderness_fits (column_of x.column) }
{
    x.column.l0.in_millimetres() <= 50 * x.column.b.in_millimetres()
}

// The area of the concrete, in tenths of mm².
#[tactic(auto, unfolding(crate::specs::Steps::concrete_area))]
fn concrete_area(gross: u64, bars: u64) -> u64
    requires { (gross ≤ 2250000) × (2 * bars ≤ gross) }
    ensures { result ≡ concrete_area gross bars }
{
    if 3 * gross < 10 * bars {
        10 * gross - bars
    } else {
        10 * gross
    }
}

// fc·A + fy'·S, in hundredths of N.
#[tactic(auto, unfolding(crate::specs::Steps::squash_load))]
fn squash_load(x: GivenColumn) -> u64
    requires { steel_fits (column_of x.valid.column) ≡ true }
    ensures { result ≡ squash_load (column_of x.valid.column) x.concrete x.steel }
{
    let bars = bars_area(x.valid);
    x.concrete.fc.in_tenths() * concrete_area(gross_area(x.valid), bars)
        + 10 * x.steel.axial.in_units() * bars
}

// 4.2.4.
#[tactic(auto, unfolding(crate::specs::Steps::axial_capacity))]
pub fn axial_capacity(x: GivenColumn) -> Force
    requires { (steel_fits (column_of x.valid.column) ≡ true) × (slenderness_fits (column_of x.valid.column) ≡ true) }
    ensures { result.0 ≡ axial_capacity (column_of x.valid.column) x.concrete x.steel }
{
    let b = x.valid.column.b.in_millimetres();
    let stability = stability_of(x.valid.column.l0.in_millimetres(), b);
    Force::of_newtons(div_down(9 * stability * squash_load(x), 200000 * b))
}
