// "Key paths may be typed in whichever order and are put into record order". The paths stand in a lent buffer as in a record.
// Stays: buffer and place go in and the next place comes out, because a struct that holds the `&mut` owes in each function that it holds it still, and is
// no plainer.
#![tactic(auto)]

ghost use Rattle.std.specs.Prelude.{◌≡◌, true};
ghost use Rattle.read_record.specs.BodyParts.{paths_end};
ghost use Rattle.write_order.specs.Places.{Ordered};
ghost use Rattle.write_order.specs.Inserts.{InsertFits, Inserted};

use read_key::order::before;
use read_record::key::Paths;
use write_set::insert_behind;

// "a path of 8 symbols and 4 key paths", each with its length.
pub const ORDERED_BYTES: usize = 36;

// The bytes before the first path that stands behind this one.
// Stays beside that of write_set: because there an equal path ends the search with none, and here two equal ones both stay.
fn find_place(count: usize, paths: &[u8], path: &[u8]) -> usize
    requires { paths_end count paths.now ≡ true }
    ensures { Ordered count paths.now path.now result }
{
    let mut passed = 0;
    for other in Paths::new(paths, count) {
        if before(path, other) {
            return passed;
        }
        passed += other.len() + 1;
    }
    passed
}

// One path more among so many in so many bytes; its answer is the bytes then used.
pub fn insert_path(buffer: &mut [u8], count: usize, used: usize, path: &[u8]) -> usize
    requires { InsertFits buffer.old count used path.now }
    ensures { Inserted buffer.old count used path.now buffer.new result }
{
    let passed = find_place(count, &buffer[..used], path);
    insert_behind(buffer, passed, used, path)
}
