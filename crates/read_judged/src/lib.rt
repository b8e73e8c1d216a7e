// What judging an input comes to: sound, or the fault that the table of refusals names first and where it stands.
#![tactic(auto)]

ghost use Rattle.std.specs.Prelude.{◌≡◌};
ghost use Rattle.read_judged.specs.Answers.{number_of, judged_at};

// The kinds of refusal, by their numbers in the table. No kind has number 11.
#[derive(Clone, Copy, Debug, PartialEq, Eq)]
pub enum RefusalKind {
    NotWhole = 1,
    NotAllowed = 2,
    BadLabel = 3,
    BadSymbols = 4,
    BadKeyPaths = 5,
    NotValid = 6,
    TooLarge = 7,
    BadNode = 8,
    // "a proof line does not follow"
    Unfollowed = 9,
    // "proof empty (record 0), or its last key is not the question (that line)"
    OtherEnd = 10,
    BreaksAKey = 12,
    KeepsTheQuestion = 13,
    SmallAnswer = 14,
    KeyTwice = 15,
    Repeated = 16,
    NotALine = 17,
    UnknownName = 18,
    ShortDetail = 19,
}

impl RefusalKind {
    pub fn number(self) -> usize
        ensures { result ≡ number_of self }
    {
        self as usize
    }
}

// The first fault of an input: its kind, and the number of the record where it stands.
#[derive(Clone, Copy, Debug, PartialEq, Eq)]
pub struct Fault {
    pub kind: RefusalKind,
    pub place: usize,
}

// What reading one input comes to; whose input it is, is the reader's to say (specs/Answers: `refusal_of`).
pub type Judged = Result<(), Fault>;

// The fault that a record's tests found, with the record's number.
pub fn at_record(found: Result<(), RefusalKind>, place: usize) -> Judged
    ensures { result ≡ judged_at place found }
{
    found.map_err(|kind| Fault { kind, place })
}
