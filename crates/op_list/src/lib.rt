// "list a block of a tree": profile as input 1, tree as input 3, block number, answer buffer.
#![tactic(auto)]

ghost use Rattle.meaning.specs.Operations.{Lists};
ghost use Rattle.op_answers.specs.Cases.{listing_answer};

use op_accept::accept_profile;
use op_answers::{Input, Refusal, has_room, of_input};
use read_tree::tree::read_tree;
use write_listing::put_block;

// Block k is lines 1,024k to 1,024k + 1,023 of the listing, past the end 0 bytes; every byte behind them stays, and a refusal changes none.
pub fn list_block(
    profile: &[u8],
    tree: &[u8],
    block: usize,
    answer: &mut [u8],
) -> Result<usize, Refusal>
    ensures { Lists profile.now tree.now block answer.old (listing_answer result answer.new) }
{
    has_room(answer)?;
    let accepted = accept_profile(profile)?;
    let judged = read_tree(tree, &accepted.classes, accepted.second);
    of_input(judged, Input::TreeOrProof)?;
    Ok(put_block(answer, tree, &accepted.classes, block))
}
