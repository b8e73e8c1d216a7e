// "every key path p of s lands": where a profile key's key path, read along a row of the asked key, ends on a mark.
#![tactic(auto)]

ghost use Rattle.std.specs.Prelude.{◌≡◌, true, length};
ghost use Rattle.meaning.specs.Lists.{every, any, numbers};
ghost use Rattle.meaning.specs.Records.{read_key, key_in, is_some};
ghost use Rattle.meaning.specs.Pattern.{t_of};
ghost use Rattle.theory_pattern.specs.Spots.{lands_on, lands as is_landing};
ghost use Rattle.read_record.specs.Seen.{seen};
ghost use Rattle.step_landings.specs.Landing.{marked_in, lands_in, OnRow, OnChain, OnSpot};

use read_record::key::Key;
use read_record::keys::{context, count, holds_empty, target};
use rule_joins::begins;
use step_rows::Pattern;

// The number of t: "from the root along C to q, on along T to t".
#[tactic(auto, unfolding(meaning::specs::Pattern::t_of))]
pub fn chain_end(asked: &[u8]) -> usize
    requires { is_some (read_key asked.now) ≡ true }
    ensures { result ≡ t_of (key_in asked.now) }
{
    context(asked).len() + target(asked).len()
}

// "marked: k = |row j|, or S holds e and k ≥ n".
#[tactic(auto, using(crate::specs::Landing::marks))]
fn marked(asked: &[u8], symbols: &[u8], k: usize) -> bool
    requires { is_some (read_key asked.now) ≡ true }
    ensures { result ≡ marked_in (key_in asked.now) symbols.now k }
{
    k == symbols.len() || chain_end(asked) <= k && holds_empty(asked)
}

// The key path, read from k on, ends on a mark of this row.
#[tactic(auto, using(crate::specs::Landing::row_landings))]
fn lands_in(asked: &[u8], symbols: &[u8], path: &[u8], k: usize) -> bool
    requires { OnRow asked.now symbols.now k }
    ensures { result ≡ lands_in (key_in asked.now) symbols.now k path.now }
{
    begins(path, &symbols[k..]) && marked(asked, symbols, k + path.len())
}

// From a chain node: on some row.
fn lands_some(pattern: &Pattern, path: &[u8], k: usize) -> bool
    requires { OnChain pattern.now.asked.now pattern.now.rows k }
    ensures { result ≡ any (lands_on (key_in pattern.now.asked.now) k path.now) (numbers (length (key_in pattern.now.asked.now).paths) 0) }
{
    for j in 0..count(pattern.asked) {
        if lands_in(pattern.asked, pattern.row(j), path, k) {
            return true;
        }
    }
    false
}

// "for some j' (j' = j where k > n)".
fn lands(pattern: &Pattern, path: &[u8], j: usize, k: usize) -> bool
    requires { OnSpot pattern.now.asked.now pattern.now.rows j k }
    ensures { result ≡ is_landing (key_in pattern.now.asked.now) j k path.now }
{
    if k <= chain_end(pattern.asked) {
        return lands_some(pattern, path, k);
    }
    lands_in(pattern.asked, pattern.row(j), path, k)
}

// Every key path of the profile key lands.
pub fn all_land(pattern: &Pattern, key: &Key, j: usize, k: usize) -> bool
    requires { OnSpot pattern.now.asked.now pattern.now.rows j k }
    ensures { result ≡ every (is_landing (key_in pattern.now.asked.now) j k) (seen key.now).paths }
{
    key.paths().all(|path| lands(pattern, path, j, k))
}
