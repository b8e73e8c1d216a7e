// The premises of a line: "Rule 0 cites key number *first premise* of the profile. In the others, premises are earlier line numbers".
#![tactic(auto)]

ghost use Rattle.std.specs.Prelude.{◌≡◌, drop};
ghost use Rattle.meaning.specs.Records.{record_body};
ghost use Rattle.read_record.specs.Seen.{seen};
ghost use Rattle.meaning.specs.Rules.{line_keys};
ghost use Rattle.meaning.specs.Operations.{records_from};
ghost use Rattle.rule_tests.specs.SetBytes.{LineKey, LineKeys};
ghost use Rattle.theory_records.specs.KeyPlaces.{keys_from, KeyRecord, KeyRecords};
ghost use Rattle.rule_premises.specs.Premises.{lines_from, LineRecord, Earlier, one_test, cited, by_one, by_two};

use read_record::fields::{HEAD_BYTES, word};
use read_record::key::Key;
use read_record::limits::{
    CONTEXT_PATH, CONTEXT_TARGET, KEY_IN_LINE, PREFIX_EPSILON, SUBNODES, SUBNODES_EPSILON,
    SUPERKEY, TARGET_PATH,
};
use read_walker::record_at;
use rule_tests::rules::{
    context_path, context_target, interaction, prefix_epsilon, subnodes, subnodes_epsilon,
    superkey, target_path,
};

// Where the premises of a line stand in its body.
pub const FIRST_AT: usize = 1;

pub const SECOND_AT: usize = 3;

// The body of key n.
#[tactic(auto, using(crate::specs::Premises::cited_bounds))]
fn key_body(part: &[u8], n: usize) -> &[u8]
    requires { KeyRecord (records_from n part.now) }
    ensures { result.now ≡ record_body (records_from n part.now) }
{
    let rest = record_at(part, n);
    let end = word(rest, 0);
    &rest[HEAD_BYTES..end]
}

// "Rule 0 cites key number *first premise* of the profile": equal keys are equal bodies.
#[tactic(auto, using(crate::specs::Premises::citation))]
pub fn cites(part: &[u8], keys: usize, first: usize, k: &Key) -> bool
    requires { KeyRecords keys part.now }
    ensures { result ≡ cited (keys_from keys part.now) first (seen k.now) }
{
    first < keys && key_body(part, first) == k.bytes()
}

// The key body of line n.
#[tactic(auto, using(crate::specs::Premises::line_bounds))]
pub fn line_key(proof: &[u8], n: usize) -> &[u8]
    requires { LineRecord (records_from n proof.now) }
    ensures { result.now ≡ drop 5 (record_body (records_from n proof.now)) }
{
    let rest = record_at(proof, n);
    let end = word(rest, 0);
    &rest[KEY_IN_LINE..end]
}

// A rule of one premise.
#[tactic(auto, unfolding(crate::specs::Premises::one_test))]
fn by_rule(rule: usize, p: &Key, k: &Key) -> bool
    requires { LineKeys p.now.body.now k.now.body.now }
    ensures { result ≡ one_test rule (seen p.now) (seen k.now) }
{
    match rule {
        PREFIX_EPSILON => prefix_epsilon(p, k),
        SUPERKEY => superkey(p, k),
        SUBNODES => subnodes(p, k),
        CONTEXT_PATH => context_path(p, k),
        TARGET_PATH => target_path(p, k),
        CONTEXT_TARGET => context_target(p, k),
        SUBNODES_EPSILON => subnodes_epsilon(p, k),
        _ => false,
    }
}

// "premises are earlier line numbers"
#[tactic(auto, using(crate::specs::Premises::one_premise))]
pub fn by_one(proof: &[u8], number: usize, rule: usize, first: usize, k: &Key) -> bool
    requires { Earlier number proof.now × LineKey k.now.body.now }
    ensures { result ≡ by_one (line_keys (lines_from number proof.now)) rule first (seen k.now) }
{
    first < number && by_rule(rule, &Key::new(line_key(proof, first)), k)
}

#[tactic(auto, using(crate::specs::Premises::two_premises))]
pub fn by_two(proof: &[u8], number: usize, first: usize, second: usize, k: &Key) -> bool
    requires { Earlier number proof.now × LineKey k.now.body.now }
    ensures { result ≡ by_two (line_keys (lines_from number proof.now)) first second (seen k.now) }
{
    first < number
        && second < number
        && interaction(
            &Key::new(line_key(proof, first)),
            &Key::new(line_key(proof, second)),
            k,
        )
}
