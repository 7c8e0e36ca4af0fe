// The members of a schedule. The validator goes through them one after the other: where they end, or the first question answered no,
// with its member. The reader takes an accepted one again. A cursor stands before a member, and after it where it is accepted.
#![tactic(auto)]

ghost use Rattle.std.specs.Prelude.{◌≡◌, OnErr};
ghost use Rattle.question.specs.Reading.{Got};
ghost use Rattle.varint.specs.Moved.{Moved};
ghost use Rattle.members.specs.Members.{member_body, mark_rises, member, members};
ghost use Rattle.members.specs.MembersResult.{marked, members_end};

use field_check::{Slots, fields_hold};
use field_reader::{read_fields, read_number};
use field_table::{is_known, kind_of};
use field_validator::{number_that, take_fields, validate_fields};
use question::{Question, Refusal};
use varint::Cursor;
use verdict::{Built, mark_in_range, member_verdict};

// The member with this mark and the kind of this number, whose fields come next and are validated one by one: its mark.
// Not inlined: most members never come here, and its slots need not stand on the stack of every call.
#[inline(never)]
#[tactic(auto, using(field_validator::proofs::Held::fields_held, crate::proofs::Members::fields_read, crate::proofs::Members::body_accepted))]
fn validate_one_by_one(input: &mut Cursor, mark: u32, number: u32) -> Result<u32, Question>
    ensures { Moved input.old (marked (member_body mark number input.old.src.now input.old.at)) result input.new }
{
    let kind = kind_of(number);
    let slots = validate_fields(input, kind)?;
    member_verdict(kind, &slots.v)?;
    Ok(mark)
}

// The same, faster: the fields are taken at once and put question 7 together. Where that fails, one by one finds the first no.
#[tactic(auto, using(field_validator::proofs::Taken::end_got, field_validator::proofs::Taken::taken_fields, crate::proofs::Members::body_accepted))]
fn validate_body(input: &mut Cursor, mark: u32, number: u32) -> Result<u32, Question>
    ensures { Moved input.old (marked (member_body mark number input.old.src.now input.old.at)) result input.new }
{
    let kind = kind_of(number);
    let first = *input;
    let mut v = [0; 40];
    match take_fields(input, kind, &mut v) {
        Ok(()) if fields_hold(kind, &v) => {
            member_verdict(kind, &v)?;
            Ok(mark)
        }
        _ => {
            *input = first;
            validate_one_by_one(input, mark, number)
        }
    }
}

// 5: a mark in range, and above the one before.
#[tactic(auto, unfolding(crate::specs::Members::mark_rises))]
fn mark_rises(before: u32, mark: u32) -> bool
    ensures { result ≡ mark_rises before mark }
{
    mark_in_range(mark) && before < mark
}

// The next member, its mark above the one before: its mark.
fn validate_member(input: &mut Cursor, before: u32) -> Result<u32, Question>
    ensures { Moved input.old (marked (member input.old.src.now input.old.at before)) result input.new }
{
    let mark = number_that(input, Question::Mark, |x| mark_rises(before, x))?;
    let number = number_that(input, Question::Kind, is_known)?;
    validate_body(input, mark, number)
}

// The next member, which is accepted.
#[tactic(auto, using(crate::proofs::Accepted::mark_got))]
pub fn read_member(input: &mut Cursor) -> Built
    requires { Got (member input.old.src.now input.old.at 0) }
    ensures { Moved input.old (member input.old.src.now input.old.at 0) (Ok result) input.new }
{
    let mark = read_number(input);
    let kind = read_number(input);
    let mut v = [0; 40];
    read_fields(input, kind_of(kind), &mut v);
    Built {
        mark,
        kind,
        fields: Slots { v },
    }
}

// The next `count` members; or the refusal.
#[tactic(auto, using(crate::proofs::Members::no_member, crate::proofs::Members::member_refused))]
pub fn validate_members(input: &mut Cursor, count: u32) -> Result<(), Refusal>
    ensures moved { Moved input.old (members_end (members count input.old.src.now input.old.at 0 1)) result input.new }
    ensures stays { OnErr result (input.new.at ≡ input.old.at) }
{
    let mut after = *input;
    let mut before = 0;
    for i in 1..=count {
        before = validate_member(&mut after, before).map_err(|q| q.at(i))?;
    }
    *input = after;
    Ok(())
}
