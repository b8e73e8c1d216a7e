// The tenth rule, of edition 2.
#![tactic(auto)]

ghost use Rattle.std.specs.Prelude.{◌≡◌};
ghost use Rattle.meaning.specs.Records.{read_line};
ghost use Rattle.meaning.specs.Paths.{singles};
ghost use Rattle.read_record.specs.Classes.{class_by};
ghost use Rattle.theory_rule_tests.specs.EditionTest.{tenth_test};
ghost use Rattle.rule_premises.specs.Premises.{LineBody};

use read_record::bodies::LINE_FIELDS;
use read_record::classes::is_attribute;
use read_record::fields::word;
use read_record::keys::target;
use read_record::limits::NO_NUMBER;
use rule_premises::{FIRST_AT, SECOND_AT};

// "a tenth rule accepts without premise any key whose target is a single attribute label", in edition 2
#[tactic(auto, using(crate::specs::Tenth::returns))]
pub fn by_attribute(body: &[u8], classes: &[u8; 256], second: bool) -> bool
    requires { LineBody body.now }
    ensures { result ≡ tenth_test (singles second (class_by classes.now)) (read_line body.now) }
{
    if word(body, FIRST_AT) != NO_NUMBER || word(body, SECOND_AT) != NO_NUMBER {
        return false;
    }
    let [label] = target(&body[LINE_FIELDS..]) else {
        return false;
    };
    second && is_attribute(classes, usize::from(*label))
}
