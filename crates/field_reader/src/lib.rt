// The reader: the numbers of a member that the validator accepted. It asks no question, since each was answered yes: each index is proved to
// be inside the bytes from the acceptance alone.
#![tactic(auto)]

ghost use Rattle.std.specs.Prelude.{◌≡◌, ◌+◌, ◌-◌, ◌<◌, ◌≤◌};
ghost use Rattle.varint.specs.Varint.{number_at, septets_at};
ghost use Rattle.varint.specs.Placed.{of_number};
ghost use Rattle.varint.specs.Moved.{Moved};
ghost use Rattle.field_table.specs.Fields.{groups, beam_fields_of, column_fields, fields_of};
ghost use Rattle.question.specs.Reading.{Got};
ghost use Rattle.field_validator.specs.Taken.{taken_row, taken};

use field_table::{
    BEAM_LINKS, COLUMN_COUNT, COLUMN_FIELDS, COLUMN_GROUPS, COLUMN_LINKS, COMPRESSION_COUNT,
    COMPRESSION_GROUPS, MESH_FIELDS, MemberKind, TENSION_COUNT, TENSION_GROUPS, beam_field_count,
};
use varint::Cursor;

// The septets from the third on, the third at `at`; low is the value of the first two: the number, and the place after its last.
fn read_long(src: &[u8], at: usize, low: u64) -> (u32, usize)
    requires { (low < 16384) × (Got (of_number (septets_at 3 src.now at 16384 low))) }
    ensures { septets_at 3 src.now at 16384 low ≡ Ok result }
{
    let mut p = at;
    let mut w: u64 = 16384;
    let mut v = low;
    let mut b = src[p] as u64;
    while 128 <= b {
        v += (b - 128) * w;
        w *= 128;
        p += 1;
        b = src[p] as u64;
    }
    ((v + b * w) as u32, p + 1)
}

// The number whose first septet stands at `at`, and the place after its last.
#[inline(always)]
fn read_at(src: &[u8], at: usize) -> (u32, usize)
    requires { Got (of_number (number_at src.now at)) }
    ensures { number_at src.now at ≡ Ok result }
{
    let first = src[at] as u64;
    if first < 128 {
        return (first as u32, at + 1);
    }
    let second = src[at + 1] as u64;
    if second < 128 {
        return ((first - 128 + second * 128) as u32, at + 2);
    }
    read_long(src, at + 2, first - 128 + (second - 128) * 128)
}

// The next number.
#[inline(always)]
pub fn read_number(input: &mut Cursor) -> u32
    requires { Got (of_number (number_at input.old.src.now input.old.at)) }
    ensures { Moved input.old (of_number (number_at input.old.src.now input.old.at)) (Ok result) input.new }
{
    let (value, next) = read_at(input.src, input.at);
    input.at = next;
    value
}

// The next numbers into the slots from `from` up to `end`.
#[tactic(auto, using(field_validator::proofs::Taken::row_ended, crate::proofs::Rows::number_got))]
#[inline(always)]
fn read_row(input: &mut Cursor, v: &mut [u32; 40], from: usize, end: usize)
    requires { (from ≤ end) × (end ≤ 40) × (Got (taken_row (end - from) input.old.src.now input.old.at from v.old)) }
    ensures { Moved input.old (taken_row (end - from) input.old.src.now input.old.at from v.old) (Ok v.new) input.new }
{
    for i in from..end {
        v[i] = read_number(input);
    }
}

// The groups of a list whose count stands in slot k.
#[tactic(auto, using(field_validator::proofs::Taken::list_taken))]
#[inline(always)]
fn read_list(input: &mut Cursor, v: &mut [u32; 40], k: usize)
    requires { (k ≤ 31) × (Got (taken (groups k) input.old.src.now input.old.at (k + 1) v.old)) }
    ensures { Moved input.old (taken (groups k) input.old.src.now input.old.at (k + 1) v.old) (Ok v.new) input.new }
{
    // a list has four groups at most
    let n = v[k].min(4) as usize;
    read_row(input, v, k + 1, k + 1 + 2 * n);
}

// The fields of a beam.
#[inline(always)]
fn read_beam(input: &mut Cursor, pointLoad: bool, v: &mut [u32; 40])
    requires { Got (taken (beam_fields_of pointLoad) input.old.src.now input.old.at 0 v.old) }
    ensures { Moved input.old (taken (beam_fields_of pointLoad) input.old.src.now input.old.at 0 v.old) (Ok v.new) input.new }
{
    read_row(input, v, 0, TENSION_GROUPS);
    read_list(input, v, TENSION_COUNT);
    read_row(input, v, COMPRESSION_COUNT, COMPRESSION_GROUPS);
    read_list(input, v, COMPRESSION_COUNT);
    read_row(input, v, BEAM_LINKS, beam_field_count(pointLoad));
}

// The fields of a column.
#[inline(always)]
fn read_column(input: &mut Cursor, v: &mut [u32; 40])
    requires { Got (taken column_fields input.old.src.now input.old.at 0 v.old) }
    ensures { Moved input.old (taken column_fields input.old.src.now input.old.at 0 v.old) (Ok v.new) input.new }
{
    read_row(input, v, 0, COLUMN_GROUPS);
    read_list(input, v, COLUMN_COUNT);
    read_row(input, v, COLUMN_LINKS, COLUMN_FIELDS);
}

// The fields of a kind, into v.
#[tactic(auto, using(field_validator::proofs::Taken::mesh_rows), unfolding(field_table::specs::Fields::fields_of))]
pub fn read_fields(input: &mut Cursor, kind: MemberKind, v: &mut [u32; 40])
    requires { Got (taken (fields_of kind) input.old.src.now input.old.at 0 v.old) }
    ensures { Moved input.old (taken (fields_of kind) input.old.src.now input.old.at 0 v.old) (Ok v.new) input.new }
{
    match kind {
        MemberKind::Beam(pointLoad) => read_beam(input, pointLoad, v),
        MemberKind::Column => read_column(input, v),
        MemberKind::Mesh => read_row(input, v, 0, MESH_FIELDS),
    }
}
