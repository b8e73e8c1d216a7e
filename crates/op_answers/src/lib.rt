// The answers of the public operations. specs/Cases gives for each case of each type the answer of `meaning` that it stands for: verdict, refusal
// number, input and record, bytes used and the answer buffer at the end. The contracts read through it.
#![tactic(auto)]

ghost use Rattle.std.specs.Prelude.{◌≡◌};
ghost use Rattle.op_answers.specs.Cases.{input_of, outcome_of, RoomTold};

use read_judged::{Fault, RefusalKind};
use std::fmt;

// The inputs, by their numbers.
#[derive(Clone, Copy, Debug, PartialEq, Eq)]
pub enum Input {
    Profile = 1,
    Question = 2,
    TreeOrProof = 3,
    Answer = 4,
}

impl Input {
    pub fn number(self) -> usize
        ensures { result ≡ input_of self }
    {
        self as usize
    }
}

// "A refusal returns number, input (1 profile, 2 question, 3 tree or proof, 4 answer buffer) and record number".
#[derive(Clone, Copy, Debug, PartialEq, Eq)]
pub struct Refusal {
    pub kind: RefusalKind,
    pub input: Input,
    pub place: usize,
}

// As every program prints it: "`refused` with number, input and record".
impl fmt::Display for Refusal {
    ghost use Rattle.std.specs.Prelude.{Some};
    ghost use Rattle.op_answers.specs.Printed.{refusal_text};

    ghost output = { λ refusal. Some (refusal_text refusal) };

    fn fmt<W: fmt::Write>(&self, f: &mut fmt::Formatter<W>) -> fmt::Result {
        write!(
            f,
            "refused {} {} {}",
            self.kind.number(),
            self.input.number(),
            self.place
        )
    }
}

// "the context node, the two target nodes, and for each key path one value-equal pair": the smaller target first, and of a pair the node below it. So
// many pairs as there are key paths, in their order; what stands behind them is 0.
#[derive(Clone, Copy, Debug, PartialEq, Eq)]
pub struct Witness {
    pub context: usize,
    pub first: usize,
    pub second: usize,
    pub paths: usize,
    pub x0: usize,
    pub y0: usize,
    pub x1: usize,
    pub y1: usize,
    pub x2: usize,
    pub y2: usize,
    pub x3: usize,
    pub y3: usize,
}

// "check a counterexample", where it is none: 12 with the number of the lowest broken key and the first witness against it, or another refusal.
#[derive(Clone, Copy, Debug, PartialEq, Eq)]
pub enum Countered {
    Breaks(usize, Witness),
    Refused(Refusal),
}

impl From<Refusal> for Countered {
    ghost use Rattle.std.specs.Prelude.{◌≡◌};
    ghost use Rattle.op_answers.specs.declared.Countered.TheVariants.{Refused};

    ghost from_gives = { λ refusal countered. countered ≡ Refused refusal };

    fn from(refusal: Refusal) -> Countered {
        Countered::Refused(refusal)
    }
}

// "decide a question": so many bytes are used.
#[derive(Clone, Copy, Debug, PartialEq, Eq)]
pub enum Decision {
    Implied(usize),
    NotImplied(usize),
}

// "every operation that fills an answer buffer ..: it is under 65,536 bytes".
pub const ANSWER_BYTES: usize = 65536;

// What was read of one input, a fault as that input's refusal.
pub fn of_input<T>(read: Result<T, Fault>, input: Input) -> Result<T, Refusal>
    ensures { result ≡ outcome_of input read }
{
    match read {
        Ok(value) => Ok(value),
        Err(fault) => Err(Refusal {
            kind: fault.kind,
            input,
            place: fault.place,
        }),
    }
}

// 14, before all else.
pub fn has_room(answer: &[u8]) -> Result<(), Refusal>
    ensures { RoomTold answer.now result }
{
    if answer.len() < ANSWER_BYTES {
        return Err(Refusal {
            kind: RefusalKind::SmallAnswer,
            input: Input::Answer,
            place: 0,
        });
    }
    Ok(())
}
