// The checks of any member, by its kind.
#![tactic(auto)]

ghost use Rattle.std.specs.Prelude.{◌≡◌};
ghost use Rattle.field_layout.specs.Valid.{valid_member};
ghost use Rattle.checks.specs.MemberOutcome.{outcome_of};

use beam::check_beam;
use column::check_column;
use field_layout::{ValidMember, beam_of, column_of, mesh_of};
use field_table::MemberKind;
use member::{ValidBeam, ValidColumn, ValidMesh};
use mesh::check_mesh;
use outcome::Outcome;

// The outcome of a member that passed every question.
#[tactic(auto, unfolding(field_layout::specs::Layout::member_at))]
pub fn check_member(x: &ValidMember) -> Outcome
    ensures { result ≡ outcome_of (valid_member x.now) }
{
    let v = &x.fields.v;
    match x.kind {
        MemberKind::Beam(pointLoad) => check_beam(ValidBeam {
            beam: beam_of(pointLoad, v),
        }),
        MemberKind::Column => check_column(ValidColumn {
            column: column_of(v),
        }),
        MemberKind::Mesh => check_mesh(ValidMesh { mesh: mesh_of(v) }),
    }
}
