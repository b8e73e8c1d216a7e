// "test whether a tree keeps a key; check a counterexample". Neither asks anything of its bytes.
#![tactic(auto)]

ghost use Rattle.meaning.specs.Operations.{TestsTree, ChecksCounterexample};
ghost use Rattle.op_answers.specs.Cases.{keeping_answer, KeepingPadded, countering_answer, CounteringPadded};

use op_accept::accept_profile;
use op_answers::{Countered, Refusal, Witness};
use op_tree_accepted::{check_accepted, keep_accepted};
use op_tree_inputs::read_both;

// "A tree keeps the key if ..": kept, or broken with the first witness, exactly.
pub fn keep(profile: &[u8], question: &[u8], tree: &[u8]) -> Result<Option<Witness>, Refusal>
    ensures { TestsTree profile.now question.now tree.now (keeping_answer result) × KeepingPadded result }
{
    let accepted = accept_profile(profile)?;
    read_both(question, tree, &accepted.classes, accepted.second)?;
    Ok(keep_accepted(&accepted, question, tree))
}

// Accepted exactly when the tree keeps every profile key and breaks the question, with the question's first witness.
pub fn check_counterexample(
    profile: &[u8],
    question: &[u8],
    tree: &[u8],
) -> Result<Witness, Countered>
    ensures { ChecksCounterexample profile.now question.now tree.now (countering_answer result) × CounteringPadded result }
{
    let accepted = accept_profile(profile)?;
    read_both(question, tree, &accepted.classes, accepted.second)?;
    check_accepted(profile, &accepted, question, tree)
}
