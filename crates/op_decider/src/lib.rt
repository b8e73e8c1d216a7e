// The decider under an accepted profile and an accepted question: u and the steps that lead to it, then the proof where u is t, else the
// tree: "implied with a proof .. not implied with a tree".
#![tactic(auto)]

ghost use Rattle.std.specs.Prelude.{◌<◌, ◌≤◌, true, ◌≡◌, Ok, length};
ghost use Rattle.meaning.specs.Records.{read_key, key_in, is_some};
ghost use Rattle.read_record.specs.Classes.{class_by};
ghost use Rattle.op_decider.specs.Upward.{steps_up};
ghost use Rattle.meaning.specs.Operations.{Decides};
ghost use Rattle.op_answers.specs.Cases.{deciding_answer};
ghost use Rattle.read_inputs.specs.Accepted.{Given};

use op_answers::Decision;
use op_profile::profiles::body_at_front;
use read_inputs::profile::Profile;
use read_record::classes::is_attribute;
use read_record::keys::{context, target};
use step_landings::chain_end;
use step_search::search::find_steps;
use write_proof::write_proof;
use write_tree::write_tree;

// In edition 2 t, an attribute, steps to its parent u.
pub fn steps_up(body: &[u8], u: usize, classes: &[u8; 256], second: bool) -> bool
    requires { (is_some (read_key body.now) ≡ true) × (u < 65536) }
    ensures { result ≡ steps_up second (class_by classes.now) (key_in body.now) u }
{
    if !second {
        return false;
    }
    let x = target(body);
    if x.len() == 0 {
        return false;
    }
    let c = context(body);
    if u + 1 != c.len() + x.len() {
        return false;
    }
    let last = usize::from(x[x.len() - 1]);
    is_attribute(classes, last)
}

// "Implied with bytes used, not implied with bytes used": the steps lead from t to q exactly when u is t, or t steps to it.
pub fn decide_accepted(
    profile: &[u8],
    question: &[u8],
    accepted: &Profile,
    answer: &mut [u8],
) -> Decision
    requires { Given profile.now accepted.now.second accepted.now.before accepted.now.keys question.now accepted.now.classes × (length accepted.now.classes ≡ 256) × (65536 ≤ length answer.old) }
    ensures { Decides profile.now question.now answer.old (deciding_answer (Ok result) answer.new) }
{
    let before = accepted.before;
    let body = body_at_front(question);
    let found = find_steps(profile, before, accepted.keys, body);
    let u = found.u;
    if u < chain_end(body) && !steps_up(body, u, &accepted.classes, accepted.second) {
        return Decision::NotImplied(write_tree(answer, body, &accepted.classes, u));
    }
    Decision::Implied(write_proof(answer, profile, before, body, u, found.steps, found.count))
}
