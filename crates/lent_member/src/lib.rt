// A built member whose groups of bars are lent beside it as lists. Lent is document 01's word for borrowed: the caller keeps the list.
#![tactic(auto)]

ghost use Rattle.std.specs.Prelude.{◌≡◌, ◌+◌, ◌≤◌};
ghost use Rattle.std.proofs.lemmas.List.Edits.{sets};
ghost use Rattle.field_table.specs.Fields.{kind_of};
ghost use Rattle.field_layout.specs.Layout.{part, group_numbers};
ghost use Rattle.lent_groups.specs.CopiedGroups.{first_four};
ghost use Rattle.lent_member.specs.Lent.{first_count, second_count};
ghost use Rattle.lent_member.specs.LentSlots.{beam_slots, column_slots, mesh_slots, filled, lent_slots, built_of};

use bars::Group;
use field_check::Slots;
use field_table::{
    BEAM_LINKS, COLUMN_COUNT, COLUMN_FIELDS, COLUMN_GROUPS, COLUMN_LINKS, COMPRESSION_COUNT,
    COMPRESSION_GROUPS, MESH_FIELDS, MemberKind, TENSION_COUNT, TENSION_GROUPS, beam_field_count,
    kind_of,
};
use verdict::Built;

// The fields of a kind in the order of a schedule, without the groups: 21 of a beam and one more under a point load, 9 of a column, 11 of a mesh. Those past them have no effect.
#[repr(C)]
#[derive(Clone, Copy)]
pub struct Fields {
    pub v: [u32; 24],
}

// A built member; its groups are lent beside it.
#[repr(C)]
#[derive(Clone, Copy)]
pub struct Lent {
    pub mark: u32,
    pub kind: u32,
    pub fields: Fields,
}

// Places among them: the count of a beam's compression groups, and the first field after the groups of a beam and of a column.
const COMPRESSION_COUNT_GIVEN: usize = 9;

const BEAM_LINKS_GIVEN: usize = 10;

const COLUMN_LINKS_GIVEN: usize = 5;

// How many groups of the first list the counts name: a beam's in tension, a column's.
pub fn first_count(x: Lent) -> usize
    ensures { result ≡ first_count (kind_of x.kind) x.fields.v }
{
    match kind_of(x.kind) {
        MemberKind::Beam(_) => x.fields.v[TENSION_COUNT] as usize,
        MemberKind::Column => x.fields.v[COLUMN_COUNT] as usize,
        MemberKind::Mesh => 0,
    }
}

// How many groups of the second list: a beam's in compression.
pub fn second_count(x: Lent) -> usize
    ensures { result ≡ second_count (kind_of x.kind) x.fields.v }
{
    match kind_of(x.kind) {
        MemberKind::Beam(_) => x.fields.v[COMPRESSION_COUNT_GIVEN] as usize,
        MemberKind::Column | MemberKind::Mesh => 0,
    }
}

// The slots from `at` on hold `count` fields from field `from` on.
fn put_fields(v: &mut [u32; 40], at: usize, x: Fields, from: usize, count: usize)
    requires { (at + count ≤ 40) × (from + count ≤ 24) }
    ensures { v.new ≡ sets v.old at (part x.v from count) }
{
    v[at..at + count].copy_from_slice(&x.v[from..from + count]);
}

// The slots from `at` on hold the four groups.
fn put_groups(v: &mut [u32; 40], at: usize, groups: [Group; 4])
    requires { at + 8 ≤ 40 }
    ensures { v.new ≡ sets v.old at (group_numbers (first_four groups)) }
{
    for i in 0..4 {
        v[at + 2 * i] = groups[i].diameter;
        v[at + 2 * i + 1] = groups[i].bars;
    }
}

// The slots of a beam. a is put for both kinds, and only kind 4 reads it.
fn beam_slots(x: Fields, first: [Group; 4], second: [Group; 4]) -> Slots
    ensures { result.v ≡ filled (beam_slots x.v first second) }
{
    let mut v = [0; 40];
    put_fields(&mut v, 0, x, 0, 9);
    put_groups(&mut v, TENSION_GROUPS, first);
    put_fields(&mut v, COMPRESSION_COUNT, x, COMPRESSION_COUNT_GIVEN, 1);
    put_groups(&mut v, COMPRESSION_GROUPS, second);
    let rest = beam_field_count(true) - BEAM_LINKS;
    put_fields(&mut v, BEAM_LINKS, x, BEAM_LINKS_GIVEN, rest);
    Slots { v }
}

fn column_slots(x: Fields, first: [Group; 4]) -> Slots
    ensures { result.v ≡ filled (column_slots x.v first) }
{
    let mut v = [0; 40];
    put_fields(&mut v, 0, x, 0, 5);
    put_groups(&mut v, COLUMN_GROUPS, first);
    let rest = COLUMN_FIELDS - COLUMN_LINKS;
    put_fields(&mut v, COLUMN_LINKS, x, COLUMN_LINKS_GIVEN, rest);
    Slots { v }
}

fn mesh_slots(x: Fields) -> Slots
    ensures { result.v ≡ filled (mesh_slots x.v) }
{
    let mut v = [0; 40];
    put_fields(&mut v, 0, x, 0, MESH_FIELDS);
    Slots { v }
}

#[tactic(auto, unfolding(crate::specs::LentSlots::lent_slots))]
fn slots_of(kind: MemberKind, x: Fields, first: [Group; 4], second: [Group; 4]) -> Slots
    ensures { result.v ≡ lent_slots kind x.v first second }
{
    match kind {
        MemberKind::Beam(_) => beam_slots(x, first, second),
        MemberKind::Column => column_slots(x, first),
        MemberKind::Mesh => mesh_slots(x),
    }
}

// The member with its groups in its slots.
pub fn built_from(x: Lent, first: [Group; 4], second: [Group; 4]) -> Built
    ensures { result ≡ built_of x first second }
{
    Built {
        mark: x.mark,
        kind: x.kind,
        fields: slots_of(kind_of(x.kind), x.fields, first, second),
    }
}
