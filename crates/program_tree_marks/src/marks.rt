// The marks of a node: what the witness has it for.
ghost use Rattle.std.specs.Prelude.{◌≤◌};

use crate::nodes::{label_of, node};
use crate::paths::key_path;
use op_answers::Witness;
use read_record::limits::FILLER_ATTRIBUTE;
use std::io;

// A question has at most 4 key paths.
pub const KEY_PATHS: usize = 4;

#[derive(Clone, Copy, Debug, PartialEq, Eq)]
pub struct Pair {
    pub x: usize,
    pub y: usize,
}

impl Pair {
    pub fn has(self, n: usize) -> bool {
        n == self.x || n == self.y
    }
}

// A tree that breaks a question, as it is shown: the profile has its labels' names, the witness its marks, and a mark of a pair names a key path of
// the question, in plain text.
#[derive(Clone, Copy, Debug)]
pub struct Broken<'a> {
    pub profile: &'a [u8],
    pub tree: &'a [u8],
    pub witness: Witness,
    pub paths: &'a [u8],
}

impl<'a> Broken<'a> {
    // The value-equal pairs, one for each key path; what stands behind them is no pair.
    pub fn pairs(&self) -> [Pair; KEY_PATHS] {
        let w = self.witness;
        [
            Pair { x: w.x0, y: w.y0 },
            Pair { x: w.x1, y: w.y1 },
            Pair { x: w.x2, y: w.y2 },
            Pair { x: w.x3, y: w.y3 },
        ]
    }

    pub fn path_count(&self) -> usize
        ensures { result ≤ 4 }
    {
        self.witness.paths.min(KEY_PATHS)
    }

    pub fn key_path(&self, j: usize) -> &'a [u8] {
        key_path(self.paths, j)
    }

    // The first key path of whose pair the node is.
    pub fn first_pair(&self, n: usize) -> Option<usize> {
        self.pairs()
            .iter()
            .take(self.path_count())
            .position(|pair| pair.has(n))
    }

    pub fn has_mark(&self, n: usize) -> bool {
        let w = self.witness;
        n == w.context || n == w.first || n == w.second || self.first_pair(n).is_some()
    }

    // Attributes that only fill are left out: "fillers are .. left out where they are attributes and no mark".
    pub fn is_shown(&self, n: usize, all: bool) -> bool {
        all || label_of(node(self.tree, n)) != FILLER_ATTRIBUTE || self.has_mark(n)
    }

    pub fn print_marks(&self, rt: &impl Print, n: usize) -> io::Result<()> {
        let mut told = false;
        for (node, words) in [
            (self.witness.context, "context"),
            (self.witness.first, "first"),
            (self.witness.second, "second"),
        ] {
            if n == node {
                print_mark(rt, told, words, b"")?;
                told = true;
            }
        }
        for (j, pair) in self.pairs().iter().take(self.path_count()).enumerate() {
            if pair.has(n) {
                print_mark(rt, told, "equal by ", self.key_path(j))?;
                told = true;
            }
        }
        Ok(())
    }
}

// One more mark: a comma stands between two.
fn print_mark(rt: &impl Print, told: bool, words: &str, path: &[u8]) -> io::Result<()> {
    if told {
        print!(rt; ", ")?;
    }
    print!(rt; "{words}")?;
    rt.write_all(path)
}
