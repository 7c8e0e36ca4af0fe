// Columns: the checks in their order, up to the first that fails.
#![tactic(auto)]

ghost use Rattle.std.specs.Prelude.{◌≡◌, true};
ghost use Rattle.material.specs.Concrete.{concrete_of};
ghost use Rattle.material.specs.Steel.{steel_of};
ghost use Rattle.member.specs.Member.{column_of};
ghost use Rattle.axial.specs.Steps.{steel_fits, slenderness_fits};
ghost use Rattle.column.specs.Checks.{links_fit, axial_outcome, slenderness_outcome, links_outcome, column_outcome};

use axial::{GivenColumn, axial_capacity, slenderness_fits, steel_fits};
use material::{concrete_of, steel_of};
use member::ValidColumn;
use outcome::{Check, Outcome, no_figure, one_figure};

// 5.6.2.
#[tactic(auto, using(bars::proofs::Sums::smallest_most), unfolding(crate::specs::Checks::links_fit))]
fn links_fit(x: ValidColumn) -> bool
    ensures { result ≡ links_fit (column_of x.column) }
{
    let s = x.column.s.in_millimetres();
    let bars = x.column.groups.totals();
    bars.largest <= 4 * x.column.link as u64
        && s <= 400
        && s <= x.column.b.in_millimetres()
        && s <= 15 * bars.smallest
}

// 4.2.4.
#[tactic(auto, unfolding(crate::specs::Checks::axial_outcome))]
fn check_axial(x: GivenColumn) -> Outcome
    requires { (steel_fits (column_of x.valid.column) ≡ true) × (slenderness_fits (column_of x.valid.column) ≡ true) }
    ensures { result ≡ axial_outcome (column_of x.valid.column) x.concrete x.steel }
{
    let capacity = axial_capacity(x);
    if x.valid.column.N <= capacity {
        one_figure(Check::Passed, capacity.in_newtons())
    } else {
        one_figure(Check::AxialForce, capacity.in_newtons())
    }
}

// 4.2.4s and what follows.
#[tactic(auto, unfolding(crate::specs::Checks::slenderness_outcome))]
fn check_slenderness(x: GivenColumn) -> Outcome
    requires { steel_fits (column_of x.valid.column) ≡ true }
    ensures { result ≡ slenderness_outcome (column_of x.valid.column) x.concrete x.steel }
{
    if slenderness_fits(x.valid) {
        check_axial(x)
    } else {
        no_figure(Check::Slenderness)
    }
}

// 5.6.2 and what follows.
#[tactic(auto, unfolding(crate::specs::Checks::links_outcome))]
fn check_links(x: GivenColumn) -> Outcome
    requires { steel_fits (column_of x.valid.column) ≡ true }
    ensures { result ≡ links_outcome (column_of x.valid.column) x.concrete x.steel }
{
    if links_fit(x.valid) {
        check_slenderness(x)
    } else {
        no_figure(Check::ColumnLinks)
    }
}

// 5.6.1 and what follows.
#[tactic(auto, unfolding(crate::specs::Checks::column_outcome))]
fn check_with(x: GivenColumn) -> Outcome
    ensures { result ≡ column_outcome (column_of x.valid.column) x.concrete x.steel }
{
    if steel_fits(x.valid) {
        check_links(x)
    } else {
        no_figure(Check::MostSteel)
    }
}

// The outcome of a column (document 01, "Column.").
pub fn check_column(x: ValidColumn) -> Outcome
    ensures { result ≡ column_outcome (column_of x.column) (concrete_of x.column.concrete) (steel_of x.column.steel) }
{
    check_with(GivenColumn {
        valid: x,
        concrete: concrete_of(x.column.concrete),
        steel: steel_of(x.column.steel),
    })
}
