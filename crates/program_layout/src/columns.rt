// Columns on standard output.
use crate::parts::part;
use std::io;

// How many digits a number has.
pub fn digits(n: usize) -> usize {
    n.checked_ilog10().map_or(1, |power| power as usize + 1)
}

// As many as one call writes.
const SPACES: usize = 64;

pub fn print_spaces(rt: &impl Print, count: usize) -> io::Result<()> {
    let blank = [b' '; SPACES];
    for _ in 0..count / SPACES {
        rt.write_all(&blank)?;
    }
    rt.write_all(part(&blank, 0, count % SPACES))
}
