// Words and inclusion ("Trees, paths and keys"; ARGUMENT §1). A path and a run of labels are slices of symbols; each contract cites the
// definition in `meaning`.
#![tactic(auto)]

ghost use Rattle.std.specs.Prelude.{◌≡◌, [], ◌-◌, ◌≤◌, ◌<◌, length, get_or};
ghost use Rattle.meaning.specs.Paths.{member as is_member};
ghost use Rattle.path_words.specs.Search.{Told};
ghost use Rattle.path_words.specs.Rows.{mark_of, TwoRows, Stepped};

// "Symbol 0 in a path is the any-path".
pub const ANY_PATH: u8 = 0;

// What a search for a word says: the run is a word, it is none, or it is none and no end of it is one: then an any-path further out,
// which can only offer less of the run, need not try again.
#[derive(Clone, Copy, Debug, PartialEq, Eq)]
pub enum Membership {
    Word,
    NoWord,
    OutOfLabels,
}

// "membership of a label run in a path calls itself on the rest, an any-path consuming a label or ending".
fn search(run: &[u8], path: &[u8]) -> Membership
    ensures { Told result path.now run.now }
{
    if path.len() == 0 {
        return if run.len() == 0 {
            Membership::Word
        } else {
            Membership::NoWord
        };
    }
    if path[0] == ANY_PATH {
        let ended = search(run, &path[1..]);
        return match ended {
            Membership::Word => Membership::Word,
            Membership::OutOfLabels => Membership::OutOfLabels,
            Membership::NoWord => {
                if run.len() == 0 {
                    Membership::OutOfLabels
                } else {
                    search(&run[1..], path)
                }
            }
        };
    }
    if run.len() == 0 {
        return Membership::OutOfLabels;
    }
    if run[0] != path[0] {
        return Membership::NoWord;
    }
    search(&run[1..], &path[1..])
}

// The run of labels is a word of the path.
pub fn member(run: &[u8], path: &[u8]) -> bool
    ensures { result ≡ is_member path.now run.now }
{
    matches!(search(run, path), Membership::Word)
}

// A path of a proof line has at most 32 symbols and so at most 33 ends; a row has a mark for each end of P.
const ROW: usize = 33;

// "no more than two rows of marks": row `old` speaks of an end of Q, the other one is filled for the end one symbol longer.
const ROWS: usize = 2;

// Mark i of the row that is filled: the end of P from i on is a word of the path with this symbol in front of what row `old` speaks of.
fn mark(rows: &[[bool; ROW]; ROWS], old: usize, p: &[u8], symbol: u8, i: usize) -> bool
    requires { (old < 2) × (i ≤ length p.now) × (length p.now ≤ 32) }
    ensures { result ≡ mark_of (get_or rows.now old []) (get_or rows.now (1 - old) []) p.now symbol i }
{
    if symbol == ANY_PATH {
        return rows[old][i] || i < p.len() && rows[1 - old][i + 1];
    }
    i < p.len() && p[i] == symbol && rows[old][i + 1]
}

// Fills the row that is not `old` for the path with this symbol in front, from its last mark to its first.
fn next_row(rows: &mut [[bool; ROW]; ROWS], old: usize, p: &[u8], symbol: u8)
    requires { (old < 2) × (length p.now ≤ 32) × TwoRows rows.old }
    ensures { Stepped rows.old rows.new old p.now symbol }
{
    for i in (0..p.len() + 1).rev() {
        let word = mark(&*rows, old, p, symbol, i);
        rows[1 - old][i] = word;
    }
}

// P is a word of Q, its own any-path read as a label that only an any-path takes: for a valid P, that is inclusion (ARGUMENT §1).
// "the rows exchanged symbol by symbol", from Q's last symbol to its first: they exchange their roles, so nothing is copied.
pub fn included(p: &[u8], q: &[u8]) -> bool
    requires { (length p.now ≤ 32) × (length q.now ≤ 32) }
    ensures { result ≡ is_member q.now p.now }
{
    let end = p.len();
    let mut rows = [[false; ROW]; ROWS];
    rows[0][end] = true;
    let mut old: usize = 0;
    for i in (0..q.len()).rev() {
        next_row(&mut rows, old, p, q[i]);
        old = 1 - old;
    }
    rows[old][0]
}
