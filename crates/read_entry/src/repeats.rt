// A part of a record looked for in the records before it: a name used before (3), two equal keys (15).
ghost use Rattle.std.specs.Prelude.{◌≡◌, ◌≤◌};
ghost use Rattle.read_entry.specs.Repeats.{Standing, any_record};

use read_record::fields::word;

// One of the first records has these bytes from `start` to its end.
pub fn part_used(bytes: &[u8], count: usize, start: usize, part: &[u8]) -> bool
    requires { (2 ≤ start) × Standing start count bytes.now }
    ensures { result ≡ any_record start part.now count bytes.now }
{
    let mut rest = bytes;
    for _ in 0..count {
        let end = word(rest, 0);
        if &rest[start..end] == part {
            return true;
        }
        rest = &rest[end..];
    }
    false
}
