// An answer as four numbers: which case it is, and its values in their order, 0 where there is none.
ghost use Rattle.std.specs.Prelude.{◌≡◌};
ghost use Rattle.test_exports.specs.Words.{refusal_words, filling_words, lean_words, inclusion_words, keeping_words, checking_words, countering_words, deciding_words};

use op_answers::{Countered, Decision, Input, Refusal, Witness};
use op_lean::Lean;
use read_judged::RefusalKind;

const REFUSED: usize = 0;

const FIRST_CASE: usize = 1;

const SECOND_CASE: usize = 2;

fn of_refusal(refusal: Refusal) -> [usize; 4]
    ensures { result ≡ refusal_words refusal }
{
    [
        REFUSED,
        refusal.kind.number(),
        refusal.input.number(),
        refusal.place,
    ]
}

pub fn of_filling(answer: Result<usize, Refusal>) -> [usize; 4]
    ensures { result ≡ filling_words answer }
{
    match answer {
        Ok(used) => [FIRST_CASE, used, 0, 0],
        Err(refusal) => of_refusal(refusal),
    }
}

pub fn of_lean(answer: Result<Lean, Refusal>) -> [usize; 4]
    ensures { result ≡ lean_words answer }
{
    match answer {
        Ok(lean) => [FIRST_CASE, lean.used, 0, 0],
        Err(refusal) => of_refusal(refusal),
    }
}

pub fn of_inclusion(answer: Result<bool, Refusal>) -> [usize; 4]
    ensures { result ≡ inclusion_words answer }
{
    match answer {
        Ok(true) => [FIRST_CASE, 0, 0, 0],
        Ok(false) => [SECOND_CASE, 0, 0, 0],
        Err(refusal) => of_refusal(refusal),
    }
}

pub fn of_keeping(answer: Result<Option<Witness>, Refusal>) -> [usize; 4]
    ensures { result ≡ keeping_words answer }
{
    match answer {
        Ok(None) => [FIRST_CASE, 0, 0, 0],
        Ok(Some(witness)) => [SECOND_CASE, witness.context, witness.first, witness.second],
        Err(refusal) => of_refusal(refusal),
    }
}

pub fn of_checking(answer: Result<(), Refusal>) -> [usize; 4]
    ensures { result ≡ checking_words answer }
{
    match answer {
        Ok(()) => [FIRST_CASE, 0, 0, 0],
        Err(refusal) => of_refusal(refusal),
    }
}

pub fn of_countering(answer: Result<Witness, Countered>) -> [usize; 4]
    ensures { result ≡ countering_words answer }
{
    match answer {
        Ok(witness) => [FIRST_CASE, witness.context, witness.first, witness.second],
        Err(Countered::Breaks(key, _)) => of_refusal(Refusal {
            kind: RefusalKind::BreaksAKey,
            input: Input::Profile,
            place: key,
        }),
        Err(Countered::Refused(refusal)) => of_refusal(refusal),
    }
}

pub fn of_deciding(answer: Result<Decision, Refusal>) -> [usize; 4]
    ensures { result ≡ deciding_words answer }
{
    match answer {
        Ok(Decision::Implied(used)) => [FIRST_CASE, used, 0, 0],
        Ok(Decision::NotImplied(used)) => [SECOND_CASE, used, 0, 0],
        Err(refusal) => of_refusal(refusal),
    }
}
