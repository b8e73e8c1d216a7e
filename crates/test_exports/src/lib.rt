// The public operations under C names, for measure/ alone: a Rust program links the static library of this crate beside the second
// implementation. Not part of the product. A slice crosses as a pointer and a length; an answer is written as four words.
#![tactic(auto)]

mod words;

ghost use Rattle.test_exports.specs.Told.{ToldRewriting, ToldInclusion, ToldKeeping, ToldProof, ToldCounterexample, ToldListing, ToldDeciding, ToldReducing, ToldTrimming};

use crate::words::{
    of_checking, of_countering, of_deciding, of_filling, of_inclusion, of_keeping, of_lean,
};
use op_decide::decide;
use op_lean::reduce;
use op_list::list_block;
use op_profile::inclusions::include;
use op_profile::profiles::rewrite;
use op_proof::check_proof;
use op_tree::{check_counterexample, keep};
use op_trim::trim;

#[unsafe(no_mangle)]
pub extern "C" fn bench_rewrite(profile: &[u8], answer: &mut [u8], told: &mut [usize; 4])
    ensures { ToldRewriting profile.now answer.old answer.new told.new }
{
    let found = rewrite(profile, answer);
    let words = of_filling(found);
    *told = words;
}

#[unsafe(no_mangle)]
pub extern "C" fn bench_include(profile: &[u8], path: &[u8], other: &[u8], told: &mut [usize; 4])
    ensures { ToldInclusion profile.now path.now other.now told.new }
{
    let found = include(profile, path, other);
    let words = of_inclusion(found);
    *told = words;
}

#[unsafe(no_mangle)]
pub extern "C" fn bench_keep(profile: &[u8], question: &[u8], tree: &[u8], told: &mut [usize; 4])
    ensures { ToldKeeping profile.now question.now tree.now told.new }
{
    let found = keep(profile, question, tree);
    let words = of_keeping(found);
    *told = words;
}

#[unsafe(no_mangle)]
pub extern "C" fn bench_check_proof(
    profile: &[u8],
    question: &[u8],
    proof: &[u8],
    told: &mut [usize; 4],
)
    ensures { ToldProof profile.now question.now proof.now told.new }
{
    let found = check_proof(profile, question, proof);
    let words = of_checking(found);
    *told = words;
}

#[unsafe(no_mangle)]
pub extern "C" fn bench_check_counterexample(
    profile: &[u8],
    question: &[u8],
    tree: &[u8],
    told: &mut [usize; 4],
)
    ensures { ToldCounterexample profile.now question.now tree.now told.new }
{
    let found = check_counterexample(profile, question, tree);
    let words = of_countering(found);
    *told = words;
}

#[unsafe(no_mangle)]
pub extern "C" fn bench_list_block(
    profile: &[u8],
    tree: &[u8],
    block: usize,
    answer: &mut [u8],
    told: &mut [usize; 4],
)
    ensures { ToldListing profile.now tree.now block answer.old answer.new told.new }
{
    let found = list_block(profile, tree, block, answer);
    let words = of_filling(found);
    *told = words;
}

#[unsafe(no_mangle)]
pub extern "C" fn bench_decide(
    profile: &[u8],
    question: &[u8],
    answer: &mut [u8],
    told: &mut [usize; 4],
)
    ensures { ToldDeciding profile.now question.now answer.old answer.new told.new }
{
    let found = decide(profile, question, answer);
    let words = of_deciding(found);
    *told = words;
}

#[unsafe(no_mangle)]
pub extern "C" fn bench_reduce(profile: &[u8], answer: &mut [u8], told: &mut [usize; 4])
    ensures { ToldReducing profile.now answer.old answer.new told.new }
{
    let found = reduce(profile, answer);
    let words = of_lean(found);
    *told = words;
}

#[unsafe(no_mangle)]
pub extern "C" fn bench_trim(
    profile: &[u8],
    question: &[u8],
    proof: &[u8],
    answer: &mut [u8],
    told: &mut [usize; 4],
)
    ensures { ToldTrimming profile.now question.now proof.now answer.old answer.new told.new }
{
    let found = trim(profile, question, proof, answer);
    let words = of_filling(found);
    *told = words;
}
