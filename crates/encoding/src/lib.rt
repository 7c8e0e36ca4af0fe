// The bytes of a schedule's members, put into a lent buffer (request 2). A number is put in shortest form, a member as its mark, kind and fields.
#![tactic(auto)]

ghost use Rattle.std.specs.Prelude.{◌≡◌, true, ◌+◌, ◌-◌, ◌*◌, ◌≤◌};
ghost use Rattle.text.specs.Wrote.{Wrote};
ghost use Rattle.varint.specs.Encoding.{bytes_of};
ghost use Rattle.field_table.specs.Fields.{beam_fields, column_fields, known, kind_of, fields_of};
ghost use Rattle.field_check.specs.FieldCheck.{fields_hold};
ghost use Rattle.field_layout.specs.Layout.{slot, part, beam_at, column_at, member_at};
ghost use Rattle.encoding.specs.ScheduleBytes.{bytes_of_all, beam_numbers, column_numbers, member_numbers};
ghost use Rattle.encoding.specs.FieldNumbers.{field_numbers};

use field_table::{
    BEAM_LINKS, COLUMN_COUNT, COLUMN_FIELDS, COLUMN_LINKS, COMPRESSION_COUNT, MESH_FIELDS,
    MemberKind, TENSION_COUNT, beam_field_count, kind_of,
};
use text::Writer;

// A number in septets.
pub fn put_number(w: &mut Writer, v: u32)
    ensures { Wrote w.old (bytes_of v) w.new }
{
    let mut rest = v;
    while 128 <= rest {
        w.put_byte((rest % 128 + 128) as u8);
        rest /= 128;
    }
    w.put_byte(rest as u8);
}

// The numbers in the slots from `from` up to `end`.
fn put_row(w: &mut Writer, v: &[u32; 40], from: usize, end: usize)
    requires { (from ≤ end) × (end ≤ 40) }
    ensures { Wrote w.old (bytes_of_all (part v.now from (end - from))) w.new }
{
    for n in &v[from..end] {
        put_number(w, *n);
    }
}

// The place after a list whose count, at most 4, stands in slot k.
fn list_end(v: &[u32; 40], k: usize) -> usize
    requires { (k ≤ 31) × (slot v.now k ≤ 4) }
    ensures { result ≡ k + (1 + 2 * slot v.now k) }
{
    k + 1 + 2 * v[k] as usize
}

// The fields of a beam: each list's groups follow its count, and none past it is put.
fn put_beam(w: &mut Writer, pointLoad: bool, v: &[u32; 40])
    requires { fields_hold beam_fields 0 v.now ≡ true }
    ensures { Wrote w.old (bytes_of_all (beam_numbers (beam_at pointLoad v.now))) w.new }
{
    put_row(w, v, 0, list_end(v, TENSION_COUNT));
    put_row(w, v, COMPRESSION_COUNT, list_end(v, COMPRESSION_COUNT));
    put_row(w, v, BEAM_LINKS, beam_field_count(pointLoad));
}

// The fields of a column.
fn put_column(w: &mut Writer, v: &[u32; 40])
    requires { fields_hold column_fields 0 v.now ≡ true }
    ensures { Wrote w.old (bytes_of_all (column_numbers (column_at v.now))) w.new }
{
    put_row(w, v, 0, list_end(v, COLUMN_COUNT));
    put_row(w, v, COLUMN_LINKS, COLUMN_FIELDS);
}

// The fields of a member of this kind.
fn put_fields(w: &mut Writer, kind: MemberKind, v: &[u32; 40])
    requires { fields_hold (fields_of kind) 0 v.now ≡ true }
    ensures { Wrote w.old (bytes_of_all (field_numbers kind v.now)) w.new }
{
    match kind {
        MemberKind::Beam(pointLoad) => put_beam(w, pointLoad, v),
        MemberKind::Column => put_column(w, v),
        MemberKind::Mesh => put_row(w, v, 0, MESH_FIELDS),
    }
}

// A member with the kind of this number, whose fields passed question 7.
pub fn put_member(w: &mut Writer, mark: u32, number: u32, v: &[u32; 40])
    requires { (known number ≡ true) × (fields_hold (fields_of (kind_of number)) 0 v.now ≡ true) }
    ensures { Wrote w.old (bytes_of_all (member_numbers (member_at mark (kind_of number) v.now))) w.new }
{
    put_number(w, mark);
    put_number(w, number);
    put_fields(w, kind_of(number), v);
}
