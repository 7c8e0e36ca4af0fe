// Which slot holds which field: the slots of a member as the fields of a beam, a column or a mesh.
#![tactic(auto)]

ghost use Rattle.std.specs.Prelude.{◌≡◌, ◌<◌, get_or};
ghost use Rattle.bars.specs.Listed.{groups_in};
ghost use Rattle.member.specs.Member.{beam_of, column_of, mesh_of};
ghost use Rattle.field_table.specs.Fields.{shear_span};
ghost use Rattle.field_layout.specs.Layout.{group, groups_at, load_at, beam_at, column_at, mesh_at};

use bars::{Group, Groups};
use field_table::{
    BEAM_LINKS, COLUMN_COUNT, COLUMN_LINKS, COMPRESSION_COUNT, SHEAR_SPAN, TENSION_COUNT,
};
use member::{Beam, Column, Load, Mesh};
use quantity::{Force, Length};
pub use valid::ValidMember;

mod valid;

fn length_at(v: &[u32; 40], i: usize) -> Length
    requires { i < 40 }
    ensures { result.0 ≡ get_or v.now i 0 }
{
    Length::of_millimetres(v[i] as u64)
}

fn force_at(v: &[u32; 40], i: usize) -> Force
    requires { i < 40 }
    ensures { result.0 ≡ get_or v.now i 0 }
{
    Force::of_newtons(v[i] as u64)
}

fn group_at(v: &[u32; 40], i: usize) -> Group
    requires { i < 39 }
    ensures { result ≡ group v.now i }
{
    Group {
        diameter: v[i],
        bars: v[i + 1],
    }
}

// The groups of the list whose count stands in slot k.
fn groups_at(v: &[u32; 40], k: usize) -> Groups
    requires { k < 30 }
    ensures { groups_in result ≡ groups_at v.now k }
{
    Groups {
        list: [
            group_at(v, k + 1),
            group_at(v, k + 3),
            group_at(v, k + 5),
            group_at(v, k + 7),
        ],
        count: v[k] as usize,
    }
}

// What a beam is loaded by: a is read where it is under a point load.
fn load_at(pointLoad: bool, v: &[u32; 40]) -> Load
    ensures { result ≡ load_at pointLoad (get_or v.now shear_span 0) }
{
    if pointLoad {
        Load::Point(length_at(v, SHEAR_SPAN))
    } else {
        Load::Uniform
    }
}

// The slots as a beam's fields.
#[tactic(auto, unfolding(crate::specs::Layout::beam_at))]
pub fn beam_of(pointLoad: bool, v: &[u32; 40]) -> Beam
    ensures { beam_of result ≡ beam_at pointLoad v.now }
{
    Beam {
        b: length_at(v, 0),
        h: length_at(v, 1),
        bf: length_at(v, 2),
        hf: length_at(v, 3),
        at: length_at(v, 4),
        ac: length_at(v, 5),
        concrete: v[6],
        steel: v[7],
        tension: groups_at(v, TENSION_COUNT),
        compression: groups_at(v, COMPRESSION_COUNT),
        link: v[BEAM_LINKS],
        legs: v[27],
        s: length_at(v, 28),
        linkSteel: v[29],
        c: length_at(v, 30),
        l0: length_at(v, 31),
        M: v[32] as u64,
        Mq: v[33] as u64,
        v: force_at(v, 34),
        environment: v[35],
        strict: v[36],
        load: load_at(pointLoad, v),
    }
}

// The slots as a column's fields.
#[tactic(auto, unfolding(crate::specs::Layout::column_at))]
pub fn column_of(v: &[u32; 40]) -> Column
    ensures { column_of result ≡ column_at v.now }
{
    Column {
        b: length_at(v, 0),
        h: length_at(v, 1),
        concrete: v[2],
        steel: v[3],
        groups: groups_at(v, COLUMN_COUNT),
        link: v[COLUMN_LINKS],
        s: length_at(v, 14),
        l0: length_at(v, 15),
        N: force_at(v, 16),
    }
}

// The slots as a mesh's fields.
#[tactic(auto, unfolding(crate::specs::Layout::mesh_at))]
pub fn mesh_of(v: &[u32; 40]) -> Mesh
    ensures { mesh_of result ≡ mesh_at v.now }
{
    Mesh {
        family: v[0],
        concrete: v[1],
        d: length_at(v, 2),
        cross: v[3],
        paired: v[4],
        apart: v[5],
        seismic: v[6],
        lapping: v[7],
        compression: v[8],
        anchorage: length_at(v, 9),
        lap: length_at(v, 10),
    }
}
