// ARGUMENT §4: the pattern "needs no tree in memory. Write row j = C ++ T ++ P_j". The asked key's rows, one for each of its key
// paths, each as "length and symbols", so that a row is read as a path is read in a key body.
#![tactic(auto)]

ghost use Rattle.std.specs.Prelude.{◌+◌, ◌*◌, ◌≡◌, ◌++◌};
ghost use Rattle.meaning.specs.Records.{key_in, path_bytes};
ghost use Rattle.theory_pattern.specs.Spots.{chain_of};
ghost use Rattle.step_rows.specs.Copies.{Copied, Room};
ghost use Rattle.step_rows.specs.Drawn.{KeySizes, WritesRow, HasRow, row_in, Drawn};

use read_record::bodies::lead_path;
use read_record::key::Key;
use read_record::keys::{context, target};

// A row has C, T and a key path, of 8 symbols each, behind its length; a question has at most 4 key paths.
pub const ROW_BYTES: usize = 25;

pub const ROWS_BYTES: usize = 100;

// The run is written from a place on.
fn copy(rows: &mut [u8; ROWS_BYTES], at: usize, run: &[u8])
    requires { Room rows.old at run.now }
    ensures { Copied rows.old at run.now rows.new }
{
    rows[at..at + run.len()].copy_from_slice(run);
}

// Row j, whose key path is given.
fn write_row(rows: &mut [u8; ROWS_BYTES], asked: &[u8], path: &[u8], j: usize)
    requires { WritesRow rows.old asked.now path.now j }
    ensures { Copied rows.old (25 * j) (path_bytes (chain_of (key_in asked.now) ++ path.now)) rows.new }
{
    let c = context(asked);
    let t = target(asked);
    let at = ROW_BYTES * j;
    let chain = c.len() + t.len();
    rows[at] = (chain + path.len()) as u8;
    copy(rows, at + 1, c);
    copy(rows, at + 1 + c.len(), t);
    copy(rows, at + 1 + chain, path);
}

// The asked key and its rows: what a search for steps reads at every spot.
#[derive(Clone, Copy, Debug, PartialEq, Eq)]
pub struct Pattern<'a> {
    pub asked: &'a [u8],
    pub rows: [u8; ROWS_BYTES],
}

// The pattern of a question's key.
pub fn draw(asked: &[u8]) -> Pattern<'_>
    requires { KeySizes asked.now }
    ensures asks { result.asked ≡ asked.entry }
    ensures draws { Drawn (key_in asked.now) result.rows }
{
    let mut rows = [0u8; ROWS_BYTES];
    for (j, path) in Key::new(asked).paths().enumerate() {
        write_row(&mut rows, asked, path, j);
    }
    Pattern { asked, rows }
}

impl<'a> Pattern<'a> {
    // Row j, where it stands.
    #[tactic(auto, unfolding(crate::specs::Drawn::row_in))]
    pub fn row(&self, j: usize) -> &[u8]
        requires { HasRow self.now.rows j }
        ensures { result.now ≡ row_in self.now.rows j }
    {
        lead_path(&self.rows[ROW_BYTES * j..])
    }
}
