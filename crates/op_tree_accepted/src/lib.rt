// The answers for an accepted question and an accepted tree: whether the tree keeps a key, and whether it is a counterexample.
#![tactic(auto)]

ghost use Rattle.std.specs.Prelude.{ℕ, List, Ok};
ghost use Rattle.meaning.specs.Operations.{TestsTree, ChecksCounterexample};
ghost use Rattle.op_accept.specs.Taken.{AcceptedIn};
ghost use Rattle.op_answers.specs.Cases.{keeping_answer, KeepingPadded, countering_answer, CounteringPadded};
ghost use Rattle.read_inputs.specs.Accepted.{GivenProfile};
ghost use Rattle.op_tree_accepted.specs.BothAccepted.{BothAccepted};

use op_answers::{Countered, Input, Refusal, Witness};
use op_profile::profiles::body_at_front;
use op_tree_keys::{first_broken, test_key, witness_of};
use read_inputs::profile::Profile;
use read_judged::RefusalKind;
use read_walker::record_at;
use tree_groups::prepare;
use tree_rows::rows::Rows;
use tree_search::tables::Tables;

// Whether the tree keeps the key: the first witness against it, if not. All tables are made once, here.
pub fn keep_accepted(accepted: &Profile, question: &[u8], tree: &[u8]) -> Option<Witness>
    requires { BothAccepted accepted.now.second question.now tree.now accepted.now.classes }
    ensures { ((profile : List ℕ) → AcceptedIn profile accepted.now.classes accepted.now.second → TestsTree profile question.now tree.now (keeping_answer (Ok result)))
        × KeepingPadded (Ok result) }
{
    let classes = &accepted.classes;
    let mut rows = Rows::new();
    prepare(tree, classes, &mut rows);
    let mut tables = Tables::new();
    test_key(tree, classes, &rows, body_at_front(question), &mut tables)
}

// The question's first witness; or 12 with the lowest broken key and its witness, then 13. All tables are made once, here, and lent to every key in turn.
pub fn check_accepted(
    profile: &[u8],
    accepted: &Profile,
    question: &[u8],
    tree: &[u8],
) -> Result<Witness, Countered>
    requires { BothAccepted accepted.now.second question.now tree.now accepted.now.classes
        × GivenProfile profile.now accepted.now.second accepted.now.before accepted.now.keys accepted.now.classes }
    ensures { ChecksCounterexample profile.now question.now tree.now (countering_answer result) × CounteringPadded result }
{
    let classes = &accepted.classes;
    let mut rows = Rows::new();
    prepare(tree, classes, &mut rows);
    let mut tables = Tables::new();
    let part = record_at(profile, accepted.before);
    if let Some(lowest) = first_broken(part, accepted.keys, tree, classes, &rows, &mut tables) {
        let shown = witness_of(part, lowest, tree, classes, &rows, &tables.hung);
        return Err(Countered::Breaks(lowest.key, shown));
    }
    let body = body_at_front(question);
    test_key(tree, classes, &rows, body, &mut tables).ok_or(Countered::Refused(Refusal {
        kind: RefusalKind::KeepsTheQuestion,
        input: Input::TreeOrProof,
        place: 0,
    }))
}
