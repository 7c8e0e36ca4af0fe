// A schedule of which every question was answered yes.

ghost use Rattle.members.specs.Accepted.{AcceptedFrom, accepted_from_prop};

use varint::Cursor;

// The cursor stands before the first of `count` accepted members.
#[derive(Clone, Copy)]
pub struct ValidSchedule<'a> {
    pub input: Cursor<'a>,
    pub count: u32,
    pub ghost accepted: { AcceptedFrom count input.src.now input.at } by { accepted_from_prop count input.src.now input.at },
}
