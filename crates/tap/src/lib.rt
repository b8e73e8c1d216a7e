// Calls from the tap's firmware. Each is one of the public operations under a C name, on byte slices; a slice crosses as a
// pointer and a length. include/culvertecho.h has the prototypes. No `requires`: a call takes arbitrary bytes.
#![tactic(auto)]

mod details;

ghost use Rattle.std.specs.Prelude.{[]};
ghost use Rattle.meaning.specs.Calls.{DecideCall, ProofCall, CounterexampleCall};

use crate::details::{of_checking, of_countering, of_deciding, put_details};
use op_decide::decide;
use op_proof::check_proof;
use op_tree::check_counterexample;
use read_judged::RefusalKind;

// "the first 16 bytes of a lent slice"
const DETAIL_BYTES: usize = 16;

// "19, detail slice shorter than 16 bytes, before 14; with 19 nothing is written." "For every other refusal the detail slice is written and the answer
// buffer stays".
#[unsafe(no_mangle)]
pub extern "C" fn culvertecho_decide(
    profile: &[u8],
    question: &[u8],
    answer: &mut [u8],
    detail: &mut [u8],
) -> usize
    ensures { DecideCall profile.now question.now answer.old detail.old (record { returned = result; detail = detail.new; buffer = answer.new }) }
{
    if detail.len() < DETAIL_BYTES {
        return RefusalKind::ShortDetail.number();
    }
    let found = decide(profile, question, answer);
    let told = of_deciding(found);
    put_details(detail, told)
}

#[unsafe(no_mangle)]
pub extern "C" fn culvertecho_check_proof(
    profile: &[u8],
    question: &[u8],
    proof: &[u8],
    detail: &mut [u8],
) -> usize
    ensures { ProofCall profile.now question.now proof.now detail.old (record { returned = result; detail = detail.new; buffer = [] }) }
{
    if detail.len() < DETAIL_BYTES {
        return RefusalKind::ShortDetail.number();
    }
    let found = check_proof(profile, question, proof);
    let told = of_checking(found);
    put_details(detail, told)
}

#[unsafe(no_mangle)]
pub extern "C" fn culvertecho_check_counterexample(
    profile: &[u8],
    question: &[u8],
    tree: &[u8],
    detail: &mut [u8],
) -> usize
    ensures { CounterexampleCall profile.now question.now tree.now detail.old (record { returned = result; detail = detail.new; buffer = [] }) }
{
    if detail.len() < DETAIL_BYTES {
        return RefusalKind::ShortDetail.number();
    }
    let found = check_counterexample(profile, question, tree);
    let told = of_countering(found);
    put_details(detail, told)
}
