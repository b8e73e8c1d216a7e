// Sets of key paths in a lent buffer, each as its count and its bytes: "Key paths stand shorter first, equal lengths by bytes, none twice".
// Stays: buffer and place go in and the next place comes out, because a struct that holds the `&mut` owes in each function that it holds it still, and is
// no plainer.
#![tactic(auto)]

ghost use Rattle.std.specs.Prelude.{◌≡◌, true, ◌++◌, ◌+◌, ◌≤◌, ◌<◌, length, drop};
ghost use Rattle.meaning.specs.Records.{path_bytes};
ghost use Rattle.read_record.specs.BodyParts.{paths_end};
ghost use Rattle.write_line.specs.LineParts.{Sized};
ghost use Rattle.write_set.specs.Places.{Found};
ghost use Rattle.write_set.specs.Inserts.{Spliced, InsertFits, Inserted};
ghost use Rattle.write_set.specs.Unions.{UniteFits, United};
ghost use Rattle.write_set.specs.Fronts.{FrontFits, Fronted};

use read_key::order::before;
use read_record::key::Paths;
use write_bytes::put;
use write_line::{put_number, put_path};

// The bytes of the largest set that is built.
pub const SET_BYTES: usize = 256;

// At most eight paths of eight symbols are united.
pub const UNITED_BYTES: usize = 128;

// So many paths in so many bytes at the front of a buffer.
#[derive(Clone, Copy, Debug, PartialEq, Eq)]
pub struct Set {
    pub count: usize,
    pub used: usize,
}

// Behind how many bytes a path belongs; None where the set holds it already.
fn find_place(count: usize, paths: &[u8], path: &[u8]) -> Option<usize>
    requires { paths_end count paths.now ≡ true }
    ensures { Found count paths.now path.now result }
{
    let mut passed = 0;
    for other in Paths::new(paths, count) {
        if before(path, other) {
            return Some(passed);
        }
        if path == other {
            return None;
        }
        passed += other.len() + 1;
    }
    Some(passed)
}

// A path put behind the first of the bytes used: what stood there moves on. The bytes then used.
pub fn insert_behind(buffer: &mut [u8], passed: usize, used: usize, path: &[u8]) -> usize
    requires { (length path.now < 256) × (passed ≤ used) × (used + length path.now + 1 ≤ length buffer.old) }
    ensures { Spliced buffer.old passed used path.now buffer.new result }
{
    buffer.copy_within(passed..used, passed + path.len() + 1);
    put_path(buffer, passed, path);
    used + path.len() + 1
}

// A path put into its place; where the set holds it already, nothing changes.
pub fn insert_path(buffer: &mut [u8], count: usize, used: usize, path: &[u8]) -> Set
    requires { InsertFits buffer.old count used path.now }
    ensures { Inserted buffer.old count used path.now buffer.new result.count result.used }
{
    let Some(passed) = find_place(count, &buffer[..used], path) else {
        return Set { count, used };
    };
    let end = insert_behind(buffer, passed, used, path);
    Set {
        count: count + 1,
        used: end,
    }
}

// What is left of a path behind its first symbols.
fn beyond(path: &[u8], front: usize) -> &[u8]
    ensures { result.now ≡ drop front path.now }
{
    &path[front.min(path.len())..]
}

// "U = S united with S'": the second set's paths, each without its first symbols, put into the first.
pub fn unite_beyond(
    buffer: &mut [u8],
    count: usize,
    set: &[u8],
    front: usize,
    more: usize,
    paths: &[u8],
) -> Set
    requires { UniteFits buffer.old count set.now more paths.now }
    ensures { United buffer.old count set.now front more paths.now buffer.new result.count result.used }
{
    let mut grown = Set {
        count,
        used: put(buffer, 0, set),
    };
    for path in Paths::new(paths, more) {
        grown = insert_path(buffer, grown.count, grown.used, beyond(path, front));
    }
    grown
}

// One path behind another.
fn put_joined(out: &mut [u8], at: usize, front: &[u8], path: &[u8]) -> usize
    requires { (length front.now + length path.now < 256) × (at + length front.now + length path.now + 1 ≤ length out.old) }
    ensures { Sized out.old out.new at (path_bytes (front.now ++ path.now)) (length front.now + length path.now + 1) result }
{
    let front_at = put_number(out, at, front.len() + path.len());
    let path_at = put(out, front_at, front);
    put(out, path_at, path)
}

// A path put in front of each path of a set; the bytes used.
pub fn put_front(buffer: &mut [u8], front: &[u8], count: usize, paths: &[u8]) -> usize
    requires { FrontFits buffer.old front.now count paths.now }
    ensures { Fronted buffer.old front.now count paths.now buffer.new result }
{
    let mut at = 0;
    for path in Paths::new(paths, count) {
        at = put_joined(buffer, at, front, path);
    }
    at
}
