// The parts of a key in its body, none copied. Each function takes a body that `key_shape` has passed.
ghost use Rattle.std.specs.Prelude.{◌≡◌, true, [], ◌<◌, length, get_or};
ghost use Rattle.meaning.specs.Lists.{any, is_empty};
ghost use Rattle.meaning.specs.Records.{read_key, key_in, is_some};
ghost use Rattle.read_record.specs.BodyParts.{set_in};
ghost use Rattle.read_record.specs.KeyPaths.{AtPath};

use crate::bodies::{after_path, lead_path};

// The symbols of C.
pub fn context(body: &[u8]) -> &[u8]
    requires { is_some (read_key body.now) ≡ true }
    ensures { result.now ≡ (key_in body.now).context }
{
    lead_path(body)
}

// The symbols of T.
pub fn target(body: &[u8]) -> &[u8]
    requires { is_some (read_key body.now) ≡ true }
    ensures { result.now ≡ (key_in body.now).target }
{
    let behind = after_path(body);
    lead_path(behind)
}

// The count of key paths and what stands behind it.
pub fn counted_set(body: &[u8]) -> &[u8]
    requires { is_some (read_key body.now) ≡ true }
    ensures { result.now ≡ set_in body.now }
{
    let behind = after_path(body);
    after_path(behind)
}

// How many key paths there are.
pub fn count(body: &[u8]) -> usize
    requires { is_some (read_key body.now) ≡ true }
    ensures { (result ≡ length (key_in body.now).paths) × (result < 256) }
{
    let set = counted_set(body);
    usize::from(set[0])
}

// The key paths in place, from the length of the first on: step by `lead_path` and `after_path`.
pub fn paths(body: &[u8]) -> &[u8]
    requires { is_some (read_key body.now) ≡ true }
    ensures { AtPath (key_in body.now).paths 0 result.now }
{
    let set = counted_set(body);
    &set[1..]
}

// The symbols of key path n.
pub fn path(body: &[u8], n: usize) -> &[u8]
    requires { (is_some (read_key body.now) ≡ true) × (n < length (key_in body.now).paths) }
    ensures { result.now ≡ get_or (key_in body.now).paths n [] }
{
    let mut rest = paths(body);
    for _ in 0..n {
        rest = after_path(rest);
    }
    lead_path(rest)
}

// The empty path is in the set.
pub fn holds_empty(body: &[u8]) -> bool
    requires { is_some (read_key body.now) ≡ true }
    ensures { result ≡ any is_empty (key_in body.now).paths }
{
    let n = count(body);
    let mut rest = paths(body);
    for _ in 0..n {
        if lead_path(rest).len() == 0 {
            return true;
        }
        rest = after_path(rest);
    }
    false
}
