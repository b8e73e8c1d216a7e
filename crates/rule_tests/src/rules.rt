// Rules 2 to 9 ("Rules of inference"), each on the bodies of its premises and of the new key.
ghost use Rattle.std.specs.Prelude.{◌<◌, ◌≡◌, ◌&&◌, length};
ghost use Rattle.meaning.specs.Rules.{with_empty};
ghost use Rattle.theory_rule_tests.specs.SameParts.{same_context, same_target, same_sets, prefix_epsilon_test, superkey_test, context_path_test, target_path_test};
ghost use Rattle.theory_rule_tests.specs.Subnodes.{goes_on, last_path, subnodes_test, subnodes_epsilon_test};
ghost use Rattle.theory_rule_tests.specs.Cuts.{ends_path, starts_any, context_target_test};
ghost use Rattle.theory_rule_tests.specs.Interactions.{interaction_test};
ghost use Rattle.read_record.specs.Seen.{seen};
ghost use Rattle.rule_tests.specs.SetBytes.{LineKeys};
ghost use Rattle.rule_tests.specs.RuleLaws.{Further, Cut, longer_only, longer_last, cut_context, premises_meet, concludes};

use crate::sets::{all_among, all_begin, is_prefixed, same_sets};
use path_words::{ANY_PATH, included};
use read_key::symbols::is_simple;
use read_record::key::Key;
use read_record::keys::{holds_empty, path};
use rule_joins::{is_both, join_is};

#[tactic(auto, using(read_record::specs::Library::same_list), unfolding(theory_rule_tests::specs::SameParts::same_context))]
pub fn same_context(p: &Key, k: &Key) -> bool
    ensures { result ≡ same_context (seen p.now) (seen k.now) }
{
    k.context() == p.context()
}

#[tactic(auto, using(read_record::specs::Library::same_list), unfolding(theory_rule_tests::specs::SameParts::same_target))]
pub fn same_target(p: &Key, k: &Key) -> bool
    ensures { result ≡ same_target (seen p.now) (seen k.now) }
{
    k.target() == p.target()
}

// Rules 2 and 3 leave context and target unchanged.
fn same_ends(p: &Key, k: &Key) -> bool
    ensures { result ≡ (same_context (seen p.now) (seen k.now) && same_target (seen p.now) (seen k.now)) }
{
    same_context(p, k) && same_target(p, k)
}

// "2. prefix-epsilon: S and the new set both hold the empty path; each path of S begins some path of the new set."
#[tactic(auto, unfolding(theory_rule_tests::specs::SameParts::prefix_epsilon_test, theory_rule_tests::specs::SameParts::holds_empty))]
pub fn prefix_epsilon(p: &Key, k: &Key) -> bool
    ensures { result ≡ prefix_epsilon_test (seen p.now) (seen k.now) }
{
    same_ends(p, k) && holds_empty(p.bytes()) && holds_empty(k.bytes()) && all_begin(p, k)
}

// "3. superkey: the new set includes S."
#[tactic(auto, unfolding(theory_rule_tests::specs::SameParts::superkey_test))]
pub fn superkey(p: &Key, k: &Key) -> bool
    ensures { result ≡ superkey_test (seen p.now) (seen k.now) }
{
    same_ends(p, k) && all_among(p, k)
}

// "T = X.P, P simple", where X is the new target.
#[tactic(auto, using(crate::specs::Walks::begins_lib), unfolding(theory_rule_tests::specs::Subnodes::goes_on))]
fn goes_on(p: &Key, k: &Key) -> bool
    ensures { result ≡ goes_on (seen p.now) (seen k.now) }
{
    let whole = p.target();
    let front = k.target();
    whole.starts_with(front) && is_simple(&whole[front.len()..])
}

// "S = {p}; gives .. {P.p}"
#[tactic(auto, using(crate::specs::RuleLaws::longer_is, crate::specs::RuleLaws::rest_is))]
fn longer_only(p: &Key, k: &Key) -> bool
    requires { Further p.now.body.now k.now.body.now }
    ensures { result ≡ longer_only (seen p.now) (seen k.now) }
{
    let n = k.target().len();
    p.count() == 1
        && k.count() == 1
        && is_both(path(k.bytes(), 0), &p.target()[n..], path(p.bytes(), 0))
}

// "4. subnodes: T = X.P, P simple, S = {p}; gives (C, (X, {P.p}))."
#[tactic(auto, unfolding(theory_rule_tests::specs::Subnodes::subnodes_test, crate::specs::RuleLaws::longer_only))]
pub fn subnodes(p: &Key, k: &Key) -> bool
    ensures { result ≡ subnodes_test (seen p.now) (seen k.now) }
{
    same_context(p, k) && goes_on(p, k) && longer_only(p, k)
}

// "5. context path: new context included in C."
#[tactic(auto, unfolding(theory_rule_tests::specs::SameParts::context_path_test))]
pub fn context_path(p: &Key, k: &Key) -> bool
    requires { LineKeys p.now.body.now k.now.body.now }
    ensures { result ≡ context_path_test (seen p.now) (seen k.now) }
{
    included(k.context(), p.context()) && same_target(p, k) && same_sets(p, k)
}

// "6. target path: new target included in T."
#[tactic(auto, unfolding(theory_rule_tests::specs::SameParts::target_path_test))]
pub fn target_path(p: &Key, k: &Key) -> bool
    requires { LineKeys p.now.body.now k.now.body.now }
    ensures { result ≡ target_path_test (seen p.now) (seen k.now) }
{
    same_context(p, k) && included(k.target(), p.target()) && same_sets(p, k)
}

// The new target ends T.
#[tactic(auto, using(crate::specs::RuleLaws::ends_lib))]
fn ends_target(p: &Key, k: &Key) -> bool
    ensures { result ≡ ends_path (seen p.now).target (seen k.now).target }
{
    p.target().ends_with(k.target())
}

// The path begins with the any-path.
fn starts_any(p: &[u8]) -> bool
    ensures { result ≡ starts_any p.now }
{
    matches!(p, [ANY_PATH, ..])
}

// "gives (C.X, ..)": X stands in T before the new target, and may end with the any-path that the new target begins with.
fn cut_context(p: &Key, k: &Key) -> bool
    requires { Cut p.now.body.now k.now.body.now }
    ensures { result ≡ cut_context (seen p.now) (seen k.now) }
{
    let whole = p.target();
    let end = k.target();
    let new = k.context();
    let old = p.context();
    let cut = whole.len() - end.len();
    join_is(old, &whole[..cut], new) || starts_any(end) && join_is(old, &whole[..cut + 1], new)
}

// "7. context target: X and Y exist with X.Y = T; gives (C.X, (Y, S)). A single `_*` may split into two."
#[tactic(auto, unfolding(theory_rule_tests::specs::Cuts::context_target_test, crate::specs::RuleLaws::cut_context))]
pub fn context_target(p: &Key, k: &Key) -> bool
    requires { LineKeys p.now.body.now k.now.body.now }
    ensures { result ≡ context_target_test (seen p.now) (seen k.now) }
{
    ends_target(p, k) && same_sets(p, k) && cut_context(p, k)
}

// "{empty, p}, where p may itself be empty": the set is the empty path, and at most one path more.
fn is_with_empty(key: &Key) -> bool
    ensures { result ≡ same_sets (seen key.now).paths (with_empty (last_path (seen key.now))) }
{
    match key.count() {
        1 => path(key.bytes(), 0).len() == 0,
        2 => path(key.bytes(), 0).len() == 0 && path(key.bytes(), 1).len() != 0,
        _ => false,
    }
}

// p of {empty, p}.
#[tactic(auto, unfolding(theory_rule_tests::specs::Subnodes::last_path))]
fn last_path<'a>(key: &Key<'a>) -> &'a [u8]
    requires { 0 < length (seen key.now).paths }
    ensures { result.now ≡ last_path (seen key.now) }
{
    path(key.bytes(), key.count() - 1)
}

// "S = {empty, p} ..; gives .. {empty, P.p}"
fn longer_last(p: &Key, k: &Key) -> bool
    requires { Further p.now.body.now k.now.body.now }
    ensures { result ≡ longer_last (seen p.now) (seen k.now) }
{
    let n = k.target().len();
    is_with_empty(p) && is_with_empty(k) && is_both(last_path(k), &p.target()[n..], last_path(p))
}

// "8. subnodes-epsilon: T = X.P, P simple, S = {empty, p}, where p may itself be empty; gives (C, (X, {empty, P.p}))."
#[tactic(auto, unfolding(theory_rule_tests::specs::Subnodes::subnodes_epsilon_test, crate::specs::RuleLaws::longer_last))]
pub fn subnodes_epsilon(p: &Key, k: &Key) -> bool
    ensures { result ≡ subnodes_epsilon_test (seen p.now) (seen k.now) }
{
    same_context(p, k) && goes_on(p, k) && longer_last(p, k)
}

// "first premise (C, (X, {P.p for p in S2})), second (C.X, (P, S2)), P simple"
#[tactic(auto, using(rule_joins::specs::Both::same_sym), unfolding(crate::specs::RuleLaws::premises_meet))]
fn premises_meet(p: &Key, r: &Key) -> bool
    requires { LineKeys p.now.body.now r.now.body.now }
    ensures { result ≡ premises_meet (seen p.now) (seen r.now) }
{
    let step = r.target();
    is_simple(step) && is_prefixed(p, step, r) && join_is(p.context(), p.target(), r.context())
}

// "gives (C, (X.P, S2))"
#[tactic(auto, unfolding(crate::specs::RuleLaws::concludes))]
fn concludes_from(p: &Key, r: &Key, k: &Key) -> bool
    ensures { result ≡ concludes (seen p.now) (seen r.now) (seen k.now) }
{
    same_context(p, k) && is_both(k.target(), p.target(), r.target()) && same_sets(r, k)
}

// "9. interaction: first premise (C, (X, {P.p for p in S2})), second (C.X, (P, S2)), P simple; gives (C, (X.P, S2))."
#[tactic(auto, unfolding(theory_rule_tests::specs::Interactions::interaction_test, crate::specs::RuleLaws::premises_meet, crate::specs::RuleLaws::concludes))]
pub fn interaction(p: &Key, r: &Key, k: &Key) -> bool
    requires { LineKeys p.now.body.now r.now.body.now × LineKeys r.now.body.now k.now.body.now }
    ensures { result ≡ interaction_test (seen p.now) (seen r.now) (seen k.now) }
{
    premises_meet(p, r) && concludes_from(p, r, k)
}
