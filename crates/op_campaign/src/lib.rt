// Counting over a campaign, one segment's bytes at a time: what it comes to for each key, or by which number it is refused, is added to a tally by
// value; the report prints a tally. Neither asks anything of its bytes or of the tally.
#![tactic(auto)]

pub mod marks;

ghost use Rattle.meaning.specs.Operations.{reported};
ghost use Rattle.meaning.specs.Tally.{Adds, ReportsTally};
ghost use Rattle.op_accept.specs.Taken.{Tables as ClassTable};
ghost use Rattle.op_answers.specs.Cases.{filling_answer};
ghost use Rattle.op_tally.specs.Counting.{tally_of};
ghost use Rattle.read_inputs.specs.Accepted.{GivenProfile};
ghost use Rattle.op_campaign.specs.Segments.{Accepted};

use crate::marks::mark_keys;
use op_accept::accept_profile;
use op_answers::{Input, Refusal, has_room};
use op_tally::{Tally, count_keys, count_refused};
use read_inputs::profile::Profile;
use read_judged::RefusalKind;
use read_names::name_count;
use read_tree::tree::read_tree;
use read_walker::record_at;
use tree_groups::prepare;
use tree_rows::rows::Rows;
use tree_search::tables::Tables;
use write_report::put_report;

// "A campaign is up to 200 segment files"
pub const CAMPAIGN_NAMES: usize = 200;

// An accepted tree under an accepted profile. All tables are made once, here, and lent to every key in turn.
fn count_accepted(profile: &[u8], accepted: &Profile, tree: &[u8], t: Tally) -> Tally
    requires { Accepted profile.now accepted.now.before accepted.now.keys tree.now accepted.now.classes }
    ensures { Adds profile.now tree.now (tally_of t) (tally_of result) }
{
    let classes = &accepted.classes;
    let mut rows = Rows::new();
    prepare(tree, classes, &mut rows);
    let mut tables = Tables::new();
    let part = record_at(profile, accepted.before);
    let breaks = mark_keys(part, accepted.keys, tree, classes, &rows, &mut tables);
    count_keys(t, accepted.keys, breaks)
}

// "apart from keys, the number refused by each refusal number": a refused segment counts for no key.
fn count_under(profile: &[u8], accepted: &Profile, tree: &[u8], t: Tally) -> Tally
    requires { ClassTable accepted.now.classes × GivenProfile profile.now accepted.now.second accepted.now.before accepted.now.keys accepted.now.classes }
    ensures { Adds profile.now tree.now (tally_of t) (tally_of result) }
{
    match read_tree(tree, &accepted.classes, accepted.second) {
        Err(fault) => count_refused(t, fault.kind.number()),
        Ok(()) => count_accepted(profile, accepted, tree, t),
    }
}

// One segment more. A refused profile changes no count: its report is the refusal.
pub fn count_segment(profile: &[u8], tree: &[u8], t: Tally) -> Tally
    ensures { Adds profile.now tree.now (tally_of t) (tally_of result) }
{
    match accept_profile(profile) {
        Err(_) => t,
        Ok(accepted) => count_under(profile, &accepted, tree, t),
    }
}

// The report of a tally at the front of the answer buffer; every byte behind it stays, and a refusal changes none. 14 comes first, then "a list of
// over 200 names, 7 with input 3", "before the profile".
pub fn report(list: &[u8], profile: &[u8], t: Tally, answer: &mut [u8]) -> Result<usize, Refusal>
    ensures { ReportsTally list.now profile.now (tally_of t) answer.old (filling_answer reported result answer.new) }
{
    has_room(answer)?;
    if CAMPAIGN_NAMES < name_count(list) {
        return Err(Refusal {
            kind: RefusalKind::TooLarge,
            input: Input::TreeOrProof,
            place: 0,
        });
    }
    let accepted = accept_profile(profile)?;
    Ok(put_report(answer, accepted.keys, t))
}
