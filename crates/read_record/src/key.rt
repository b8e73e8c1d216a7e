// A key in place, in its body: its parts are parts of the caller's bytes, none copied.
ghost use Rattle.std.specs.Prelude.{◌≡◌, true};
ghost use Rattle.std.specs.Iterator.{YieldsFirstRef, item_count};
ghost use Rattle.meaning.specs.Records.{read_key, is_some};

use crate::bodies::{after_path, key_shape, lead_path};
use crate::keys;
use std::marker::Model;

// Key paths in their order, from the one that stands at the front.
#[derive(Drop)]
pub struct Paths<'a> {
    rest: &'a [u8],
    left: usize,
}

impl<'a> Model for Paths<'a> {
    ghost use Rattle.std.specs.Prelude.{◌≡◌, true, ℕ, List};
    ghost use Rattle.read_record.specs.BodyParts.{paths_end, paths_of};

    ghost Value = { List (List ℕ) };

    ghost view = { λ p. paths_of p.left p.rest.now };

    ghost invariant = { λ p. paths_end p.left p.rest.now ≡ true };
}

impl<'a> Iterator for Paths<'a> {
    type Item = &'a [u8];

    ghost next_gives = { YieldsFirstRef (λ paths. paths) };

    ghost remaining = { item_count (λ paths. paths) };

    #[tactic(auto, using(crate::specs::Steps::path_steps))]
    fn next(&mut self) -> Option<&'a [u8]> {
        if self.left == 0 {
            return None;
        }
        let path = lead_path(self.rest);
        self.rest = after_path(self.rest);
        self.left -= 1;
        Some(path)
    }
}

impl<'a> Paths<'a> {
    ghost use Rattle.std.specs.Prelude.{◌≡◌, true};
    ghost use Rattle.read_record.specs.BodyParts.{paths_end, paths_of};

    // So many key paths, which stand to the end of the bytes.
    pub fn new(bytes: &'a [u8], count: usize) -> Paths<'a>
        requires { paths_end count bytes.now ≡ true }
        ensures { result ≡ paths_of count bytes.now }
    {
        Paths {
            rest: bytes,
            left: count,
        }
    }
}

// The bytes of a key's body, which end where its parts do.
#[derive(Clone, Copy)]
pub struct Key<'a> {
    body: &'a [u8],
    pub ghost whole: { is_some (read_key body.now) ≡ true },
}

impl<'a> Key<'a> {
    ghost use Rattle.std.specs.Prelude.{◌≡◌, ◌<◌, true, false, length, MatchOption};
    ghost use Rattle.meaning.specs.Records.{read_key, is_some};
    ghost use Rattle.read_record.specs.Seen.{seen};

    // The key whose body this is, if it is one's.
    pub fn read(body: &'a [u8]) -> Option<Key<'a>>
        ensures { MatchOption result (is_some (read_key body.now) ≡ false) (λ key. key.body.now ≡ body.now) }
    {
        if key_shape(body) {
            Some(Key { body })
        } else {
            None
        }
    }

    // The key of a body that was found to be one's.
    pub fn new(body: &'a [u8]) -> Key<'a>
        requires { is_some (read_key body.now) ≡ true }
        ensures { result.body.now ≡ body.now }
    {
        Key { body }
    }

    pub fn bytes(&self) -> &'a [u8]
        ensures { result.now ≡ self.now.body.now }
    {
        self.body
    }

    // The symbols of C.
    pub fn context(&self) -> &'a [u8]
        ensures { result.now ≡ (seen self.now).context }
    {
        keys::context(self.body)
    }

    // The symbols of T.
    pub fn target(&self) -> &'a [u8]
        ensures { result.now ≡ (seen self.now).target }
    {
        keys::target(self.body)
    }

    // How many key paths there are.
    pub fn count(&self) -> usize
        ensures { (result ≡ length (seen self.now).paths) × (result < 256) }
    {
        keys::count(self.body)
    }

    pub fn paths(&self) -> Paths<'a>
        ensures { result ≡ (seen self.now).paths }
    {
        Paths::new(keys::paths(self.body), keys::count(self.body))
    }
}
