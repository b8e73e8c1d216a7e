// "lists every dropped record", "in blocks of 1,024 lines"; then the keys that what is left breaks.
#![tactic(auto)]

ghost use Rattle.std.specs.Prelude.{ℕ, ◌≤◌, ◌≡◌, List, length};
ghost use Rattle.meaning.specs.Operations.{listed, records_from};
ghost use Rattle.meaning.specs.Salvage.{ListsSalvage};
ghost use Rattle.read_inputs.specs.Accepted.{GivenProfile};
ghost use Rattle.op_accept.specs.Taken.{Tables};
ghost use Rattle.op_answers.specs.Cases.{filling_answer};
ghost use Rattle.op_tree_keys.specs.ProfileKeys.{KeyBodies};
ghost use Rattle.op_salvage_list.specs.Listing.{Starts};

use op_accept::accept_profile;
use op_answers::{Input, Refusal, has_room, of_input};
use op_salvage_keys::put_broken_keys;
use read_inputs::profile::Profile;
use read_salvage::records::RECORDS;
use read_salvage::salvage::salvage_into;
use read_tree::tree::WIDE_TREE_BYTES;
use read_walker::record_at;
use write_salvage::{BLOCK_LINES, put_dropped};

// The first line, 11,264 records and 64 keys are lines of twelve blocks.
const BLOCKS: usize = 12;

// The number of the block's first line; past the last block any block is empty.
fn block_start(block: usize) -> usize
    ensures { Starts result block }
{
    if BLOCKS <= block {
        return BLOCK_LINES * BLOCKS;
    }
    BLOCK_LINES * block
}

// The block under an accepted profile, of which the part from its first key on is given.
fn list_under(
    part: &[u8],
    accepted: &Profile,
    tree: &[u8],
    block: usize,
    answer: &mut [u8],
) -> Result<usize, Refusal>
    requires { Tables accepted.now.classes × KeyBodies part.now accepted.now.keys × (accepted.now.keys ≤ 64) × (65536 ≤ length answer.old) }
    ensures { (profile : List ℕ) (before : ℕ) → GivenProfile profile accepted.now.second before accepted.now.keys accepted.now.classes → part.now ≡ records_from before profile
        → ListsSalvage profile tree.now block answer.old (filling_answer listed result answer.new) }
{
    let classes = &accepted.classes;
    let mut kept = [0u8; WIDE_TREE_BYTES];
    let mut reasons = [0u8; RECORDS];
    let read = salvage_into(tree, classes, accepted.second, &mut kept, &mut reasons);
    let passed = of_input(read, Input::TreeOrProof)?;
    let start = block_start(block);
    let dropped = put_dropped(answer, start, &reasons[..passed.records], passed.stopped);
    let left = &kept[..passed.used];
    let put = put_broken_keys(answer, dropped, start, part, accepted.keys, left, classes);
    Ok(put.at)
}

// Block k of the salvage listing, past the end 0 bytes; every byte behind them stays, and a refusal changes none.
pub fn salvage_block(
    profile: &[u8],
    tree: &[u8],
    block: usize,
    answer: &mut [u8],
) -> Result<usize, Refusal>
    ensures { ListsSalvage profile.now tree.now block answer.old (filling_answer listed result answer.new) }
{
    has_room(answer)?;
    let accepted = accept_profile(profile)?;
    let part = record_at(profile, accepted.before);
    list_under(part, &accepted, tree, block, answer)
}
