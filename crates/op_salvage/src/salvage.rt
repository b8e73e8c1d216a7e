// "keep what can be read": what is left of a damaged tree file, as a tree file. No `requires`: arbitrary bytes are refused by the numbered table.
ghost use Rattle.std.specs.Prelude.{ℕ, ◌≤◌, List, length};
ghost use Rattle.meaning.specs.Operations.{salvaged};
ghost use Rattle.meaning.specs.Salvage.{Salvages};
ghost use Rattle.op_accept.specs.Taken.{AcceptedIn, Tables};
ghost use Rattle.op_answers.specs.Cases.{filling_answer};

use op_accept::accept_profile;
use op_answers::{Input, Refusal, has_room, of_input};
use read_inputs::profile::Profile;
use read_salvage::records::RECORDS;
use read_salvage::salvage::salvage_into;
use read_tree::tree::WIDE_TREE_BYTES;
use write_bytes::put;

// The answer for a file under an accepted profile, of which only the class table and the edition are needed.
fn salvage_tree(tree: &[u8], accepted: &Profile, answer: &mut [u8]) -> Result<usize, Refusal>
    requires { Tables accepted.now.classes × (65536 ≤ length answer.old) }
    ensures { (profile : List ℕ) → AcceptedIn profile accepted.now.classes accepted.now.second → Salvages profile tree.now answer.old (filling_answer salvaged result answer.new) }
{
    let mut out = [0u8; WIDE_TREE_BYTES];
    let mut reasons = [0u8; RECORDS];
    let read = salvage_into(
        tree,
        &accepted.classes,
        accepted.second,
        &mut out,
        &mut reasons,
    );
    let passed = of_input(read, Input::TreeOrProof)?;
    Ok(put(answer, 0, &out[..passed.used]))
}

// What is left stands at the front of the answer buffer; every byte behind it stays, and a refusal changes none.
pub fn salvage(profile: &[u8], tree: &[u8], answer: &mut [u8]) -> Result<usize, Refusal>
    ensures { Salvages profile.now tree.now answer.old (filling_answer salvaged result answer.new) }
{
    has_room(answer)?;
    let accepted = accept_profile(profile)?;
    salvage_tree(tree, &accepted, answer)
}
