// "the refusals of profile, question and tree in their order": question, then tree.
#![tactic(auto)]

ghost use Rattle.op_tree_inputs.specs.Inputs.{BothSay};

use op_answers::{Input, Refusal, of_input};
use read_inputs::question::read_question;
use read_tree::tree::read_tree;

pub fn read_both(
    question: &[u8],
    tree: &[u8],
    classes: &[u8; 256],
    second: bool,
) -> Result<(), Refusal>
    ensures { BothSay second question.now tree.now classes.now result }
{
    of_input(read_question(question, classes), Input::Question)?;
    of_input(read_tree(tree, classes, second), Input::TreeOrProof)
}
