// The validator of a member's fields: one by one, each held to its domain, or all at once. A caller's cursor stands before the first, and
// after the last where no question was answered no; else it stays where it was.
// `take_row` to `take_fields` are inlined, so that the cursor need not stand in memory between them.
#![tactic(auto)]

ghost use Rattle.std.specs.Prelude.{◌≡◌, ◌+◌, ◌-◌, ◌≤◌, ℕ, Bool, OnErr};
ghost use Rattle.field_domain.specs.Domain.{holds};
ghost use Rattle.field_table.specs.Fields.{groups, beam_fields_of, column_fields, fields_of};
ghost use Rattle.varint.specs.Moved.{Moved};
ghost use Rattle.field_validator.specs.Taken.{taken_row, taken, fields_end_of};
ghost use Rattle.field_validator.specs.FieldsAt.{empty, Tests, checked, fields};
ghost use Rattle.field_validator.specs.FieldsResult.{fields_read_of};

use field_check::Slots;
use field_domain::{Domain, domain_holds, field_present};
use field_table::{
    BEAM_LINKS, COLUMN_COUNT, COLUMN_FIELDS, COLUMN_GROUPS, COLUMN_LINKS, COMPRESSION_COUNT,
    COMPRESSION_GROUPS, MESH_FIELDS, MemberKind, TENSION_COUNT, TENSION_GROUPS, beam_field_count,
    field_count, field_of,
};
use question::Question;
use varint::Cursor;

// The next number, and question q put to it: the test that it passes.
pub fn number_that<F: Fn(u32) -> bool>(
    input: &mut Cursor,
    q: Question,
    test: F,
) -> Result<u32, Question>
    requires { F.IsAlwaysCallable test }
    ensures moved { (asked : ℕ → Bool) → Tests (F.post test) asked → Moved input.old (checked q asked input.old.src.now input.old.at) result input.new }
    ensures stays { OnErr result (input.new.at ≡ input.old.at) }
{
    let mut after = *input;
    let x = after.number()?;
    if test(x) {
        *input = after;
        Ok(x)
    } else {
        Err(q)
    }
}

// The next number as a field: questions 2, 3 and 7.
fn validate_field(input: &mut Cursor, d: Domain) -> Result<u32, Question>
    ensures { Moved input.old (checked Question.Field (holds d) input.old.src.now input.old.at) result input.new }
{
    number_that(input, Question::Field, |x| domain_holds(d, x))
}

// The fields of a kind, in slots.
#[tactic(auto, using(field_table::proofs::Tables::fields_fit, crate::proofs::Fields::fields_read, crate::proofs::Fields::field_absent, crate::proofs::Fields::field_refused, crate::proofs::Fields::field_stored))]
pub fn validate_fields(input: &mut Cursor, kind: MemberKind) -> Result<Slots, Question>
    ensures moved { Moved input.old (fields (fields_of kind) input.old.src.now input.old.at 0 empty) (fields_read_of result) input.new }
    ensures stays { OnErr result (input.new.at ≡ input.old.at) }
{
    let mut after = *input;
    let mut v = [0; 40];
    for i in 0..field_count(kind) {
        let d = field_of(kind, i);
        if field_present(d, &v) {
            v[i] = validate_field(&mut after, d)?;
        }
    }
    *input = after;
    Ok(Slots { v })
}

// The next numbers into the slots from `from` up to `end`.
#[tactic(auto, using(crate::proofs::Taken::row_ended, crate::proofs::Taken::row_refused, crate::proofs::Taken::row_stored))]
#[inline(always)]
fn take_row(input: &mut Cursor, v: &mut [u32; 40], from: usize, end: usize) -> Result<(), Question>
    requires { (from ≤ end) × (end ≤ 40) }
    ensures { Moved input.old (taken_row (end - from) input.old.src.now input.old.at from v.old) (fields_end_of result v.new) input.new }
{
    for i in from..end {
        v[i] = input.number()?;
    }
    Ok(())
}

// The groups of a list whose count stands in slot k.
#[tactic(auto, using(crate::proofs::Taken::list_taken))]
#[inline(always)]
fn take_list(input: &mut Cursor, v: &mut [u32; 40], k: usize) -> Result<(), Question>
    requires { k ≤ 31 }
    ensures { Moved input.old (taken (groups k) input.old.src.now input.old.at (k + 1) v.old) (fields_end_of result v.new) input.new }
{
    // a list has four groups at most
    let n = v[k].min(4) as usize;
    take_row(input, v, k + 1, k + 1 + 2 * n)
}

// The fields of a beam.
#[inline(always)]
fn take_beam(input: &mut Cursor, pointLoad: bool, v: &mut [u32; 40]) -> Result<(), Question>
    ensures { Moved input.old (taken (beam_fields_of pointLoad) input.old.src.now input.old.at 0 v.old) (fields_end_of result v.new) input.new }
{
    take_row(input, v, 0, TENSION_GROUPS)?;
    take_list(input, v, TENSION_COUNT)?;
    take_row(input, v, COMPRESSION_COUNT, COMPRESSION_GROUPS)?;
    take_list(input, v, COMPRESSION_COUNT)?;
    take_row(input, v, BEAM_LINKS, beam_field_count(pointLoad))
}

// The fields of a column.
#[tactic(auto, using(crate::proofs::Taken::column_rows))]
#[inline(always)]
fn take_column(input: &mut Cursor, v: &mut [u32; 40]) -> Result<(), Question>
    ensures { Moved input.old (taken column_fields input.old.src.now input.old.at 0 v.old) (fields_end_of result v.new) input.new }
{
    take_row(input, v, 0, COLUMN_GROUPS)?;
    take_list(input, v, COLUMN_COUNT)?;
    take_row(input, v, COLUMN_LINKS, COLUMN_FIELDS)
}

// The fields of a kind, into v; or the refusal of a number.
#[tactic(auto, using(crate::proofs::Taken::mesh_rows), unfolding(field_table::specs::Fields::fields_of))]
#[inline(always)]
pub fn take_fields(input: &mut Cursor, kind: MemberKind, v: &mut [u32; 40]) -> Result<(), Question>
    ensures moved { Moved input.old (taken (fields_of kind) input.old.src.now input.old.at 0 v.old) (fields_end_of result v.new) input.new }
    ensures stays { OnErr result (input.new.at ≡ input.old.at) }
{
    let mut after = *input;
    match kind {
        MemberKind::Beam(pointLoad) => take_beam(&mut after, pointLoad, v),
        MemberKind::Column => take_column(&mut after, v),
        MemberKind::Mesh => take_row(&mut after, v, 0, MESH_FIELDS),
    }?;
    *input = after;
    Ok(())
}
