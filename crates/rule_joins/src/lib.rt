// What the rules of inference ask of paths beside words ("Rules of inference"): a beginning, and joins, which are tested against a path that is there and
// never built.
#![tactic(auto)]

ghost use Rattle.std.specs.Prelude.{◌≡◌, ◌++◌};
ghost use Rattle.meaning.specs.Lists.{same as is_same};
ghost use Rattle.meaning.specs.Paths.{join};
ghost use Rattle.rule_joins.specs.Forms.{is_beginning, is_doubled};
ghost use Rattle.rule_joins.specs.Joins.{BothNormal, Overlap};

use path_words::ANY_PATH;

// p begins with s. The library's `starts_with` is a call; parts of one length that differ in their first symbols cost none.
pub fn begins(s: &[u8], p: &[u8]) -> bool
    ensures { result ≡ is_beginning s.now p.now }
{
    if p.len() < s.len() {
        return false;
    }
    s == &p[..s.len()]
}

fn doubled(s: u8, t: u8) -> bool
    ensures { result ≡ is_doubled s t }
{
    s == ANY_PATH && t == ANY_PATH
}

// How many symbols of y their join leaves out: the any-path that ends x and begins y stands there once.
fn overlap(x: &[u8], y: &[u8]) -> usize
    requires { BothNormal x.now y.now }
    ensures { Overlap x.now y.now result }
{
    if x.len() == 0 || y.len() == 0 {
        return 0;
    }
    if doubled(x[x.len() - 1], y[0]) { 1 } else { 0 }
}

// The path is the front and then the back.
pub fn is_both(path: &[u8], front: &[u8], back: &[u8]) -> bool
    ensures { result ≡ is_same path.now (front.now ++ back.now) }
{
    path.starts_with(front) && &path[front.len()..] == back
}

// The join of x and y, both in normal form, is t.
pub fn join_is(x: &[u8], y: &[u8], t: &[u8]) -> bool
    requires { BothNormal x.now y.now }
    ensures { result ≡ is_same (join x.now y.now) t.now }
{
    let n = overlap(x, y);
    is_both(t, x, &y[n..])
}
