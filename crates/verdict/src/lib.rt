// The questions of a whole member in slots, and those put to a single built member.
#![tactic(auto)]

ghost use Rattle.std.specs.Prelude.{◌≡◌, true, Ok};
ghost use Rattle.field_table.specs.Fields.{beam_fields, column_fields, fields_of};
ghost use Rattle.field_check.specs.FieldCheck.{fields_hold};
ghost use Rattle.field_layout.specs.Layout.{beam_at, column_at, mesh_at};
ghost use Rattle.verdict.specs.Built.{Validated};
ghost use Rattle.verdict.specs.Verdict.{ask_verdict, beam_verdict, column_verdict, mesh_verdict, member_verdict, mark_in_range, fields_verdict, built_verdict};

use consistency::{beam_consistent, column_consistent, mesh_consistent};
use field_check::{Slots, fields_hold};
use field_domain::in_range;
use field_layout::{ValidMember, beam_of, column_of, mesh_of};
use field_table::{MemberKind, is_known, kind_of};
use member::RangedBeam;
use question::Question;
use reinforcement::{beam_bars, beam_ratio, column_bars};
use service_moment::service_moment_fits;

// A member that a caller builds.
#[derive(Clone, Copy)]
pub struct Built {
    pub mark: u32,
    pub kind: u32,
    pub fields: Slots,
}

// Question q is put: a no is the answer.
fn ask(q: Question, holds: bool) -> Result<(), Question>
    ensures { result ≡ ask_verdict q holds (Ok tt) }
{
    if holds { Ok(()) } else { Err(q) }
}

// 8, 9, 10 and 14 of a beam whose fields passed question 7, each after a yes to the one before.
#[tactic(auto, unfolding(crate::specs::Verdict::beam_verdict))]
fn beam_verdict(pointLoad: bool, v: &[u32; 40]) -> Result<(), Question>
    requires { fields_hold beam_fields 0 v.now ≡ true }
    ensures { result ≡ beam_verdict (beam_at pointLoad v.now) }
{
    let x = RangedBeam {
        beam: beam_of(pointLoad, v),
    };
    ask(Question::Consistency, beam_consistent(x))?;
    ask(Question::Bars, beam_bars(x))?;
    ask(Question::Ratio, beam_ratio(x))?;
    ask(Question::ServiceMoment, service_moment_fits(x.beam))
}

// 8 and 9 of a column whose fields passed question 7.
#[tactic(auto, using(field_layout::proofs::Held::column_groups_of), unfolding(crate::specs::Verdict::column_verdict))]
fn column_verdict(v: &[u32; 40]) -> Result<(), Question>
    requires { fields_hold column_fields 0 v.now ≡ true }
    ensures { result ≡ column_verdict (column_at v.now) }
{
    let x = column_of(v);
    ask(Question::Consistency, column_consistent(x))?;
    ask(Question::Bars, column_bars(x))
}

// 8 of a mesh.
#[tactic(auto, unfolding(crate::specs::Verdict::mesh_verdict))]
fn mesh_verdict(v: &[u32; 40]) -> Result<(), Question>
    ensures { result ≡ mesh_verdict (mesh_at v.now) }
{
    ask(Question::Consistency, mesh_consistent(mesh_of(v)))
}

// The questions of a whole member whose fields passed question 7.
#[tactic(auto, using(field_layout::proofs::Held::beam_fields_held), unfolding(crate::specs::Verdict::member_verdict, field_layout::specs::Layout::member_at, field_table::specs::Fields::fields_of))]
pub fn member_verdict(kind: MemberKind, v: &[u32; 40]) -> Result<(), Question>
    requires { fields_hold (fields_of kind) 0 v.now ≡ true }
    ensures { result ≡ member_verdict kind v.now }
{
    match kind {
        MemberKind::Beam(pointLoad) => beam_verdict(pointLoad, v),
        MemberKind::Column => column_verdict(v),
        MemberKind::Mesh => mesh_verdict(v),
    }
}

// 5: a mark in range.
#[tactic(auto, unfolding(crate::specs::Verdict::mark_in_range))]
pub fn mark_in_range(mark: u32) -> bool
    ensures { result ≡ mark_in_range mark }
{
    in_range(1, 999999, mark)
}

// 7, and the questions of a whole member of this kind.
#[tactic(auto, unfolding(crate::specs::Verdict::fields_verdict))]
fn fields_verdict(kind: MemberKind, v: &[u32; 40]) -> Result<(), Question>
    ensures { result ≡ fields_verdict kind v.now }
{
    if fields_hold(kind, v) {
        member_verdict(kind, v)
    } else {
        Err(Question::Field)
    }
}

// The questions put to a single built member with this mark, the kind of this number and these slots.
#[tactic(auto, unfolding(crate::specs::Verdict::built_verdict))]
pub fn built_verdict(mark: u32, number: u32, v: &[u32; 40]) -> Result<(), Question>
    ensures { result ≡ built_verdict mark number v.now }
{
    if !mark_in_range(mark) {
        return Err(Question::Mark);
    }
    if !is_known(number) {
        return Err(Question::Kind);
    }
    fields_verdict(kind_of(number), v)
}

impl Built {
    // The same: the member that passed them, or the first answered no.
    #[tactic(auto, using(crate::proofs::Accepted::accepted_built))]
    pub fn validate(self) -> Result<ValidMember, Question>
        ensures { Validated self result }
    {
        built_verdict(self.mark, self.kind, &self.fields.v)?;
        Ok(ValidMember {
            mark: self.mark,
            kind: kind_of(self.kind),
            fields: self.fields,
        })
    }
}
