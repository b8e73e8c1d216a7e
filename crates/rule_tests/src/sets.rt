// Sets of key paths as they stand in key bodies: "count of key paths; length and symbols of each".
ghost use Rattle.std.specs.Prelude.{◌≡◌};
ghost use Rattle.meaning.specs.Lists.{any, same as is_same};
ghost use Rattle.read_record.specs.Seen.{seen};
ghost use Rattle.theory_rule_tests.specs.Beginnings.{begins as is_beginning};
ghost use Rattle.theory_rule_tests.specs.SameParts.{all_begin, all_among, same_sets};
ghost use Rattle.theory_rule_tests.specs.Interactions.{prefixed};

use read_record::key::Key;
use read_record::keys::counted_set;
use rule_joins::{begins, is_both};

// Equal sets are equal bytes: each set has one encoding.
#[tactic(auto, using(crate::specs::SetBytes::same_sets_law))]
pub fn same_sets(p: &Key, k: &Key) -> bool
    ensures { result ≡ same_sets (seen k.now).paths (seen p.now).paths }
{
    counted_set(k.bytes()) == counted_set(p.bytes())
}

// The path is in the set.
pub fn is_among(path: &[u8], key: &Key) -> bool
    ensures { result ≡ any (is_same path.now) (seen key.now).paths }
{
    key.paths().any(|other| path == other)
}

// The path begins some path of the set.
pub fn begins_some(path: &[u8], key: &Key) -> bool
    ensures { result ≡ any (is_beginning path.now) (seen key.now).paths }
{
    key.paths().any(|other| begins(path, other))
}

// "the new set includes S"
pub fn all_among(p: &Key, k: &Key) -> bool
    ensures { result ≡ all_among (seen p.now) (seen k.now) }
{
    p.paths().all(|path| is_among(path, k))
}

// "each path of S begins some path of the new set"
pub fn all_begin(p: &Key, k: &Key) -> bool
    ensures { result ≡ all_begin (seen p.now) (seen k.now) }
{
    p.paths().all(|path| begins_some(path, k))
}

// "{P.p for p in S2}": each path of the one set is the front and then the path of the other in the same place.
pub fn is_prefixed(p: &Key, front: &[u8], r: &Key) -> bool
    ensures { result ≡ same_sets (seen p.now).paths (prefixed front.now (seen r.now).paths) }
{
    p.count() == r.count()
        && p.paths()
            .zip(r.paths())
            .all(|(whole, rest)| is_both(whole, front, rest))
}
