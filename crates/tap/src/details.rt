// The first 16 bytes of the detail slice.
ghost use Rattle.std.specs.Prelude.{◌≡◌, ◌≤◌, length};
ghost use Rattle.meaning.specs.Calls.{detail_bytes};
ghost use Rattle.tap.specs.Fields.{verdict_of, refusal_fields, verdict_fields, deciding_fields, checking_fields, countering_fields, Put};

use op_answers::{Countered, Decision, Input, Refusal, Witness};
use read_judged::RefusalKind;
use write_line::put_word;

// "verdict (0 refused, 1 implied or accepted, 2 not implied)"
#[derive(Clone, Copy, Debug, PartialEq, Eq)]
pub enum Verdict {
    Refused = 0,
    ImpliedOrAccepted = 1,
    NotImplied = 2,
}

impl Verdict {
    fn number(self) -> usize
        ensures { result ≡ verdict_of self }
    {
        self as usize
    }
}

// How many values two bytes have.
const WORD: usize = 65536;

// "verdict .., refusal number, input, record, bytes used (0 if none)"
#[derive(Clone, Copy, Debug, PartialEq, Eq)]
pub struct Fields {
    pub verdict: Verdict,
    pub number: usize,
    pub input: usize,
    pub place: usize,
    pub used: usize,
}

fn of_refusal(refusal: Refusal) -> Fields
    ensures { result ≡ refusal_fields refusal }
{
    Fields {
        verdict: Verdict::Refused,
        number: refusal.kind.number(),
        input: refusal.input.number(),
        place: refusal.place,
        used: 0,
    }
}

// No refusal: so many bytes are used.
fn of_verdict(verdict: Verdict, used: usize) -> Fields
    ensures { result ≡ verdict_fields verdict used }
{
    Fields {
        verdict,
        number: 0,
        input: 0,
        place: 0,
        used,
    }
}

pub fn of_deciding(answer: Result<Decision, Refusal>) -> Fields
    ensures { result ≡ deciding_fields answer }
{
    match answer {
        Ok(Decision::Implied(used)) => of_verdict(Verdict::ImpliedOrAccepted, used),
        Ok(Decision::NotImplied(used)) => of_verdict(Verdict::NotImplied, used),
        Err(refusal) => of_refusal(refusal),
    }
}

pub fn of_checking(answer: Result<(), Refusal>) -> Fields
    ensures { result ≡ checking_fields answer }
{
    match answer {
        Ok(()) => of_verdict(Verdict::ImpliedOrAccepted, 0),
        Err(refusal) => of_refusal(refusal),
    }
}

// The witness has no field.
pub fn of_countering(answer: Result<Witness, Countered>) -> Fields
    ensures { result ≡ countering_fields answer }
{
    match answer {
        Ok(_) => of_verdict(Verdict::ImpliedOrAccepted, 0),
        Err(Countered::Breaks(key, _)) => of_refusal(Refusal {
            kind: RefusalKind::BreaksAKey,
            input: Input::Profile,
            place: key,
        }),
        Err(Countered::Refused(refusal)) => of_refusal(refusal),
    }
}

// "the remaining bytes zero, all fields two bytes except bytes used with four, little-endian". What stands behind the 16 bytes stays.
pub fn put_details(detail: &mut [u8], told: Fields) -> usize
    requires { detail_bytes ≤ length detail.old }
    ensures { Put told detail.old detail.new result }
{
    let above = told.used / WORD;
    let number_at = put_word(detail, 0, told.verdict.number());
    let input_at = put_word(detail, number_at, told.number);
    let place_at = put_word(detail, input_at, told.input);
    let used_at = put_word(detail, place_at, told.place);
    let above_at = put_word(detail, used_at, told.used);
    let zeros_at = put_word(detail, above_at, above);
    let last_at = put_word(detail, zeros_at, 0);
    put_word(detail, last_at, 0);
    told.number
}
