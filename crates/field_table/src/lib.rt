// The fields of each kind of member in the order of a schedule, each with its domain.
#![tactic(auto)]

ghost use Rattle.std.specs.Prelude.{◌≡◌, true, ◌<◌, length, get_or};
ghost use Rattle.field_table.specs.Fields.{groups, beam_fields_of, column_fields, mesh_fields, known, kind_of, fields_of};

use field_domain::{Domain, in_range};

#[cfg(test)]
mod tests;

// The kinds of member. A beam: whether it is under a point load (kind 4) or not (kind 1).
#[derive(Clone, Copy)]
pub enum MemberKind {
    Beam(bool),
    Column,
    Mesh,
}

// Slots of a beam: the count of its tension groups and the first of them, the same in compression, the first field after them, and a, which kind 4 has after all of kind 1.
pub const TENSION_COUNT: usize = 8;

pub const TENSION_GROUPS: usize = 9;

pub const COMPRESSION_COUNT: usize = 17;

pub const COMPRESSION_GROUPS: usize = 18;

pub const BEAM_LINKS: usize = 26;

pub const SHEAR_SPAN: usize = 37;

// Of a column.
pub const COLUMN_COUNT: usize = 4;

pub const COLUMN_GROUPS: usize = 5;

pub const COLUMN_LINKS: usize = 13;

pub const COLUMN_FIELDS: usize = 17;

// Of a mesh, which has no groups.
pub const MESH_FIELDS: usize = 11;

// Field j of a list of groups whose count stands in slot k, any slot. Nothing here calls it: the tables below have the lists that there are.
pub fn group_field(k: u32, j: usize) -> Domain
    requires { j < 8 }
    ensures { result ≡ get_or (groups k) j Domain.Grade }
{
    let place = j as u32 / 2;
    if j % 2 == 0 {
        Domain::GroupDiameter(k, place)
    } else {
        Domain::GroupBars(k, place)
    }
}

// The fields of a beam. The last one, a, is there only under a point load.
static BEAM_TABLE: [Domain; 38] = [
    Domain::Range(100, 1000),
    Domain::Range(160, 2000),
    Domain::Range(100, 3000),
    Domain::Range(0, 1000),
    Domain::Range(20, 200),
    Domain::ZeroOr(20, 200),
    Domain::Grade,
    Domain::Steel,
    Domain::Range(1, 4),
    Domain::GroupDiameter(8, 0),
    Domain::GroupBars(8, 0),
    Domain::GroupDiameter(8, 1),
    Domain::GroupBars(8, 1),
    Domain::GroupDiameter(8, 2),
    Domain::GroupBars(8, 2),
    Domain::GroupDiameter(8, 3),
    Domain::GroupBars(8, 3),
    Domain::Range(0, 4),
    Domain::GroupDiameter(17, 0),
    Domain::GroupBars(17, 0),
    Domain::GroupDiameter(17, 1),
    Domain::GroupBars(17, 1),
    Domain::GroupDiameter(17, 2),
    Domain::GroupBars(17, 2),
    Domain::GroupDiameter(17, 3),
    Domain::GroupBars(17, 3),
    Domain::Bar(6, 12),
    Domain::Range(2, 8),
    Domain::Range(50, 400),
    Domain::LinkSteel,
    Domain::Range(15, 200),
    Domain::Range(1000, 12000),
    Domain::Range(0, 100000000),
    Domain::Range(1, 100000000),
    Domain::Range(0, 100000000),
    Domain::Range(1, 3),
    Domain::Range(0, 1),
    Domain::Range(0, 12000),
];

// Of a column.
static COLUMN_TABLE: [Domain; 17] = [
    Domain::Range(300, 1500),
    Domain::Range(300, 1500),
    Domain::Grade,
    Domain::Steel,
    Domain::Range(1, 4),
    Domain::GroupDiameter(4, 0),
    Domain::GroupBars(4, 0),
    Domain::GroupDiameter(4, 1),
    Domain::GroupBars(4, 1),
    Domain::GroupDiameter(4, 2),
    Domain::GroupBars(4, 2),
    Domain::GroupDiameter(4, 3),
    Domain::GroupBars(4, 3),
    Domain::Bar(6, 12),
    Domain::Range(50, 600),
    Domain::Range(500, 30000),
    Domain::Range(0, 1000000000),
];

// Of a mesh.
static MESH_TABLE: [Domain; 11] = [
    Domain::Range(1, 2),
    Domain::Grade,
    Domain::Bar(5, 16),
    Domain::Range(0, 1),
    Domain::Range(0, 1),
    Domain::Range(0, 1),
    Domain::Range(0, 4),
    Domain::Range(1, 2),
    Domain::Range(0, 1),
    Domain::Range(0, 100000),
    Domain::Range(0, 100000),
];

// Field i of a beam.
#[inline(always)]
pub fn beam_field(i: usize) -> Domain
    requires { i < length (beam_fields_of true) }
    ensures { result ≡ get_or (beam_fields_of true) i Domain.Grade }
{
    BEAM_TABLE[i]
}

// Field i of a column.
#[inline(always)]
pub fn column_field(i: usize) -> Domain
    requires { i < length column_fields }
    ensures { result ≡ get_or column_fields i Domain.Grade }
{
    COLUMN_TABLE[i]
}

// Field i of a mesh.
#[inline(always)]
pub fn mesh_field(i: usize) -> Domain
    requires { i < length mesh_fields }
    ensures { result ≡ get_or mesh_fields i Domain.Grade }
{
    MESH_TABLE[i]
}

// Question 6.
#[tactic(auto, unfolding(crate::specs::Fields::known))]
pub fn is_known(number: u32) -> bool
    ensures { result ≡ known number }
{
    in_range(1, 4, number)
}

// The kind of a number that question 6 lets through.
#[tactic(auto, unfolding(crate::specs::Fields::kind_of))]
pub fn kind_of(number: u32) -> MemberKind
    ensures { result ≡ kind_of number }
{
    match number {
        1 => MemberKind::Beam(false),
        2 => MemberKind::Column,
        4 => MemberKind::Beam(true),
        _ => MemberKind::Mesh,
    }
}

// The number of fields of a beam.
pub fn beam_field_count(pointLoad: bool) -> usize
    ensures { result ≡ length (beam_fields_of pointLoad) }
{
    if pointLoad {
        SHEAR_SPAN + 1
    } else {
        SHEAR_SPAN
    }
}

// The number of fields of a kind.
#[tactic(auto, unfolding(crate::specs::Fields::fields_of))]
pub fn field_count(kind: MemberKind) -> usize
    ensures { result ≡ length (fields_of kind) }
{
    match kind {
        MemberKind::Beam(pointLoad) => beam_field_count(pointLoad),
        MemberKind::Column => COLUMN_FIELDS,
        MemberKind::Mesh => MESH_FIELDS,
    }
}

// Field i of a kind.
#[inline(always)]
#[tactic(auto, unfolding(crate::specs::Fields::fields_of))]
pub fn field_of(kind: MemberKind, i: usize) -> Domain
    requires { i < length (fields_of kind) }
    ensures { result ≡ get_or (fields_of kind) i Domain.Grade }
{
    match kind {
        MemberKind::Beam(_) => beam_field(i),
        MemberKind::Column => column_field(i),
        MemberKind::Mesh => mesh_field(i),
    }
}
