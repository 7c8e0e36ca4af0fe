// How far each check of a member is used: its demand over its figure, or its figure over its limit.
#![tactic(auto)]

ghost use Rattle.std.specs.Prelude.{◌≡◌, ◌≤◌};
ghost use Rattle.member.specs.Member.{beam_of, column_of, mesh_of};
ghost use Rattle.field_layout.specs.Valid.{valid_member};
ghost use Rattle.ratio.specs.Ratio.{quotient, ExactFigures};
ghost use Rattle.utilization.specs.Utilization.{deflection_limit, beam_utilization, column_utilization, mesh_utilization, utilization_of};
ghost use Rattle.utilization.specs.Utilized.{Utilized};

use checks::check_member;
use cracking::width_limit;
use deflection::span_divisor;
use field_layout::{ValidMember, beam_of, column_of, mesh_of};
use field_table::MemberKind;
use member::{ValidBeam, ValidColumn, ValidMesh};
use outcome::Outcome;
use quantity::{Length, div_down};
use question::Refusal;
use ratio::{Utilization, over_figure, over_limit, together};
use verdict::Built;

// The limit of the deflection over a span, 0.01 mm.
#[tactic(auto, using(deflection::proofs::Bounds::divisor_between), unfolding(crate::specs::Utilization::deflection_limit))]
fn deflection_limit(l0: Length, strict: u32) -> u64
    requires { l0.0 ≤ 12000 }
    ensures { result ≡ deflection_limit l0.0 strict }
{
    let span = 100 * l0.in_millimetres();
    div_down(span, span_divisor(l0, strict))
}

#[tactic(auto, using(crate::proofs::Utilized::width_limit_small, crate::proofs::Utilized::deflection_limit_small), unfolding(crate::specs::Utilization::beam_utilization))]
fn beam_utilization(x: ValidBeam, o: Outcome) -> Utilization
    requires { ExactFigures o }
    ensures { result ≡ beam_utilization quotient (beam_of x.beam) o }
{
    together(
        over_figure(x.beam.M, o.first),
        over_figure(x.beam.v.in_newtons(), o.second),
        over_limit(o.third, width_limit(x.beam.environment)),
        over_limit(o.fourth, deflection_limit(x.beam.l0, x.beam.strict)),
    )
}

#[tactic(auto, unfolding(crate::specs::Utilization::column_utilization))]
fn column_utilization(x: ValidColumn, o: Outcome) -> Utilization
    requires { ExactFigures o }
    ensures { result ≡ column_utilization quotient (column_of x.column) o }
{
    together(
        over_figure(x.column.N.in_newtons(), o.first),
        None,
        None,
        None,
    )
}

#[tactic(auto, unfolding(crate::specs::Utilization::mesh_utilization))]
fn mesh_utilization(x: ValidMesh, o: Outcome) -> Utilization
    requires { ExactFigures o }
    ensures { result ≡ mesh_utilization quotient (mesh_of x.mesh) o }
{
    together(
        over_limit(o.first, x.mesh.anchorage.in_millimetres()),
        over_limit(o.second, x.mesh.lap.in_millimetres()),
        None,
        None,
    )
}

// Of a member with this outcome.
#[tactic(auto, unfolding(field_layout::specs::Layout::member_at))]
fn member_utilization(x: &ValidMember, o: Outcome) -> Utilization
    requires { ExactFigures o }
    ensures { result ≡ utilization_of quotient (valid_member x.now) o }
{
    let v = &x.fields.v;
    match x.kind {
        MemberKind::Beam(pointLoad) => beam_utilization(
            ValidBeam {
                beam: beam_of(pointLoad, v),
            },
            o,
        ),
        MemberKind::Column => column_utilization(
            ValidColumn {
                column: column_of(v),
            },
            o,
        ),
        MemberKind::Mesh => mesh_utilization(ValidMesh { mesh: mesh_of(v) }, o),
    }
}

// The utilization of a member that a caller built, or the first question answered no.
#[tactic(auto, using(crate::proofs::Utilized::refused))]
pub fn utilization_of(x: Built) -> Result<Utilization, Refusal>
    ensures { Utilized x result }
{
    // by reference: the member is not moved again
    match &x.validate() {
        Ok(member) => Ok(member_utilization(member, check_member(member))),
        Err(q) => Err(q.at(1)),
    }
}
