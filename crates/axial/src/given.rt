// What the checks of a column are put to.

ghost use Rattle.std.proofs.Props.{props};
ghost use Rattle.bars.proofs.Facts.{groups_prop};
ghost use Rattle.member.specs.Member.{column_of};
ghost use Rattle.axial.specs.Given.{Given};

use material::{Concrete, Steel};
use member::ValidColumn;

// A column that passed every question, and the values of any usable concrete and steel.
#[derive(Clone, Copy)]
pub struct GivenColumn {
    pub valid: ValidColumn,
    pub concrete: Concrete,
    pub steel: Steel,
    pub ghost given: { Given (column_of valid.column) concrete steel } by { Prim.hlevel (props, groups_prop) },
}
