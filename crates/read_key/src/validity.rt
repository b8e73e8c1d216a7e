// 6: "C.T.P not valid for some P". The join is not built: what stands before the last symbol has to be an element or the any-path.
ghost use Rattle.std.specs.Prelude.{◌≡◌, ◌&&◌, ◌++◌};
ghost use Rattle.meaning.specs.Lists.{every};
ghost use Rattle.meaning.specs.Paths.{valid};
ghost use Rattle.read_record.specs.Classes.{class_by, all_valid_by};
ghost use Rattle.read_record.specs.Seen.{seen};
ghost use Rattle.read_key.specs.Validity.{inner, behind};

use crate::symbols::{ANY_PATH, TEXT};
use read_record::key::Key;

// "202 a filler attribute"; the classes of a label record
const FILLER_ATTRIBUTE: u8 = 202;

const ATTRIBUTE_CLASS: u8 = 2;

// A symbol that may stand before others: "an attribute or text label stands only last".
pub fn is_inner(s: u8, classes: &[u8; 256]) -> bool
    ensures { result ≡ inner (class_by classes.now) s }
{
    match s {
        ANY_PATH => true,
        TEXT => false,
        FILLER_ATTRIBUTE => false,
        _ => classes[usize::from(s)] != ATTRIBUTE_CLASS,
    }
}

pub fn all_inner(p: &[u8], classes: &[u8; 256]) -> bool
    ensures { result ≡ every (inner (class_by classes.now)) p.now }
{
    p.iter().all(|&s| is_inner(s, classes))
}

// "A path is valid if an attribute or text label stands only last."
pub fn is_valid(p: &[u8], classes: &[u8; 256]) -> bool
    ensures { result ≡ valid (class_by classes.now) p.now }
{
    all_inner(&p[..p.len().saturating_sub(1)], classes)
}

// Whether a path is valid behind another, of which is known whether all of it may stand before others and whether it is valid itself.
fn valid_behind(front_inner: bool, front_valid: bool, p: &[u8], classes: &[u8; 256]) -> bool
    ensures { result ≡ behind (class_by classes.now) front_inner front_valid p.now }
{
    match p {
        [] => front_valid,
        _ => front_inner && is_valid(p, classes),
    }
}

fn both_inner(c: &[u8], t: &[u8], classes: &[u8; 256]) -> bool
    ensures { result ≡ (every (inner (class_by classes.now)) c.now && every (inner (class_by classes.now)) t.now) }
{
    all_inner(c, classes) && all_inner(t, classes)
}

fn both_valid(c: &[u8], t: &[u8], classes: &[u8; 256]) -> bool
    ensures { result ≡ valid (class_by classes.now) (c.now ++ t.now) }
{
    let front_inner = all_inner(c, classes);
    let front_valid = is_valid(c, classes);
    valid_behind(front_inner, front_valid, t, classes)
}

// C.T.P is valid for each P.
pub fn all_valid(key: &Key, classes: &[u8; 256]) -> bool
    ensures { result ≡ all_valid_by classes.now (seen key.now) }
{
    let c = key.context();
    let t = key.target();
    let front_inner = both_inner(c, t, classes);
    let front_valid = both_valid(c, t, classes);
    key.paths().all(|path| valid_behind(front_inner, front_valid, path, classes))
}
