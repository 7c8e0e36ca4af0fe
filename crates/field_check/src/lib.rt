// A member in slots, and question 7 of it.
#![tactic(auto)]

ghost use Rattle.std.specs.Prelude.{◌≡◌, ◌<◌, length, get_or};
ghost use Rattle.field_domain.specs.Domain.{field_holds};
ghost use Rattle.field_table.specs.Fields.{fields_of};
ghost use Rattle.field_check.specs.FieldCheck.{fields_hold};

use field_domain::{Domain, slot_holds};
use field_table::{MemberKind, field_count, field_of};

// A member's fields, one to a slot in the order of its kind's table, four groups to each list. Slots past a count are not read.
#[derive(Clone, Copy)]
pub struct Slots {
    pub v: [u32; 40],
}

// Question 7 of field i, which stands in slot i.
#[tactic(auto, using(field_table::proofs::Tables::fields_fit))]
#[inline(always)]
fn field_holds(kind: MemberKind, i: usize, v: &[u32; 40]) -> bool
    requires { i < length (fields_of kind) }
    ensures { result ≡ field_holds (get_or (fields_of kind) i Domain.Grade) i v.now }
{
    slot_holds(field_of(kind, i), i, v)
}

// Question 7 of a member.
pub fn fields_hold(kind: MemberKind, v: &[u32; 40]) -> bool
    ensures { result ≡ fields_hold (fields_of kind) 0 v.now }
{
    (0..field_count(kind)).all(|i| field_holds(kind, i, v))
}
