// The questions that a schedule or a member is put before any check (document 01, "Questions before any check"; 13 and 14: document 02, requests 2 and 5).
// A question is a rule of validation. Input that gets a no is refused: the first no is the answer, and nothing is checked.
#![tactic(auto)]

ghost use Rattle.std.specs.Prelude.{◌≡◌};
ghost use Rattle.question.specs.Question.{number_of};
ghost use Rattle.question.specs.Reading.{refusal};

#[derive(Clone, Copy, PartialEq, Eq)]
pub enum Question {
    // 1: is the schedule at most 60,000 bytes?
    Size,
    // 2: does the number end inside the file?
    NumberEnds,
    // 3: is the number at most five septets, below 2^32, the last of several septets not zero?
    NumberForm,
    // 4: is the member count at most 500?
    Count,
    // 5: is the mark in range and above the one before?
    Mark,
    // 6: is the kind known?
    Kind,
    // 7: is the field in range?
    Field,
    // 8: are the member's fields consistent with each other?
    Consistency,
    // 9: are there at most 40 bars on each face of a beam, or in a column?
    Bars,
    // 10: beam: is 5·S ≤ 2·b·h0, with S the area of the tension bars?
    Ratio,
    // 11: is there no byte after the last member?
    Trailing,
    // 12: is the report buffer long enough?
    Buffer,
    // 13: is the buffer long enough for the file that is written?
    File,
    // 14: beam: is the service moment Mq at most the design moment M?
    ServiceMoment,
}

// A no: the question, and the member's place in the schedule, from 1.
// The place is 0 for questions 1, 4, 11, 12 and 13 of a schedule, and for 2 and 3 put to the count itself; a built member's refusals all have 1.
#[derive(Clone, Copy)]
pub struct Refusal {
    pub question: Question,
    pub member: u32,
}

impl Question {
    // A no to this question that names this member.
    pub fn at(self, member: u32) -> Refusal
        ensures { result ≡ refusal self member }
    {
        Refusal {
            question: self,
            member,
        }
    }
}

// The number by which the papers name a question.
impl From<Question> for u32 {
    ghost from_gives = { λ q n. n ≡ number_of q };

    fn from(q: Question) -> u32 {
        match q {
            Question::Size => 1,
            Question::NumberEnds => 2,
            Question::NumberForm => 3,
            Question::Count => 4,
            Question::Mark => 5,
            Question::Kind => 6,
            Question::Field => 7,
            Question::Consistency => 8,
            Question::Bars => 9,
            Question::Ratio => 10,
            Question::Trailing => 11,
            Question::Buffer => 12,
            Question::File => 13,
            Question::ServiceMoment => 14,
        }
    }
}
