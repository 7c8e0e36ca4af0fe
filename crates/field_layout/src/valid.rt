// A member of which it is known that it passed every question.

ghost use Rattle.member.specs.Accepted.{AcceptedMember};
ghost use Rattle.member.proofs.OneWay.{accepted_member_prop};
ghost use Rattle.field_layout.specs.Layout.{member_at};

use field_check::Slots;
use field_table::MemberKind;

// Its mark, its kind and its fields.
#[derive(Clone, Copy)]
pub struct ValidMember {
    pub mark: u32,
    pub kind: MemberKind,
    pub fields: Slots,
    pub ghost accepted: { AcceptedMember (member_at mark kind fields.v) } by { accepted_member_prop _ },
}
