// Whether one line follows: "Rule 0 cites key number *first premise* of the profile. In the others, premises are earlier line numbers; an
// unused premise field is 65535."
#![tactic(auto)]

ghost use Rattle.std.specs.Prelude.{◌≡◌};
ghost use Rattle.meaning.specs.Records.{read_line};
ghost use Rattle.meaning.specs.Rules.{line_keys};
ghost use Rattle.meaning.specs.Paths.{singles};
ghost use Rattle.read_record.specs.Classes.{class_by};
ghost use Rattle.theory_rule_tests.specs.LineTest.{follows_test};
ghost use Rattle.theory_rule_tests.specs.EditionTest.{follows_in_test};
ghost use Rattle.theory_records.specs.KeyPlaces.{keys_from, KeyRecords};
ghost use Rattle.rule_premises.specs.Premises.{lines_from, Earlier, LineBody};

use read_record::bodies::LINE_FIELDS;
use read_record::fields::word;
use read_record::key::Key;
use read_record::limits::{CITATION, EPSILON, INTERACTION, NO_NUMBER, ONE_ATTRIBUTE};
use rule_premises::{FIRST_AT, SECOND_AT, by_one, by_two, cites};
use rule_tenth::by_attribute;

// By a rule of both editions, line `number` with this body follows from the profile's keys, which stand in `part`, and the lines before it in the
// proof.
#[tactic(auto, using(rule_premises::specs::Premises::line_returns))]
fn by_shared(part: &[u8], keys: usize, proof: &[u8], number: usize, body: &[u8]) -> bool
    requires { KeyRecords keys part.now × Earlier number proof.now × LineBody body.now }
    ensures { result ≡ follows_test (keys_from keys part.now) (line_keys (lines_from number proof.now)) (read_line body.now) }
{
    let first = word(body, FIRST_AT);
    let second = word(body, SECOND_AT);
    let k = Key::new(&body[LINE_FIELDS..]);
    match usize::from(body[0]) {
        INTERACTION => by_two(proof, number, first, second, &k),
        _ if second != NO_NUMBER => false,
        CITATION => cites(part, keys, first, &k),
        EPSILON => first == NO_NUMBER && k.target().len() == 0,
        rule => by_one(proof, number, rule, first, &k),
    }
}

// Line `number` with this body follows, in edition 2 or 1.
#[tactic(auto, using(rule_tenth::specs::Tenth::editions))]
pub fn follows(
    part: &[u8],
    keys: usize,
    proof: &[u8],
    number: usize,
    body: &[u8],
    classes: &[u8; 256],
    second: bool,
) -> bool
    requires { KeyRecords keys part.now × Earlier number proof.now × LineBody body.now }
    ensures { result ≡ follows_in_test (singles second (class_by classes.now)) (keys_from keys part.now) (line_keys (lines_from number proof.now)) (read_line body.now) }
{
    if usize::from(body[0]) == ONE_ATTRIBUTE {
        by_attribute(body, classes, second)
    } else {
        by_shared(part, keys, proof, number, body)
    }
}
