// One path.
ghost use Rattle.std.specs.Prelude.{◌≡◌, ◌<◌, ◌≤◌, IfOk};
ghost use Rattle.read_entry.specs.Labels.{labels_at};
ghost use Rattle.read_entry.specs.Repeats.{Standing};
ghost use Rattle.read_symbols.specs.Scanning.{PathTold, symbols_in, with_symbol};

use crate::errors::{TextError, both};
use crate::symbol::symbol_of;

// "a path of 8 symbols"
pub const SYMBOLS: usize = 8;
// A path's length and its symbols.
pub const SLOT: usize = 9;

// How many symbols a path's text has, and those that fit with their number before them.
#[derive(Clone, Copy, Debug, PartialEq, Eq)]
pub struct PathRead {
    pub count: usize,
    pub path: [u8; SLOT],
}

impl PathRead {
    // Its symbols, where they fit.
    pub fn symbols(&self) -> &[u8]
        requires { self.now.count ≤ 8 }
        ensures { result.now ≡ symbols_in self.now }
    {
        &self.path[1..self.count + 1]
    }
}

// One symbol more.
fn add_symbol(
    path: Result<PathRead, TextError>,
    symbol: Result<u8, TextError>,
) -> Result<PathRead, TextError>
    requires { IfOk path (λ read. read.count < 9223372036854775808) }
    ensures { result ≡ with_symbol path symbol }
{
    let (mut read, symbol) = both(path, symbol)?;
    if read.count < SYMBOLS {
        read.path[0] = (read.count + 1) as u8;
        read.path[read.count + 1] = symbol;
    }
    read.count += 1;
    Ok(read)
}

// All of a text of any length is read; "labels joined by dots", "a lone `.` for the empty path".
pub fn read_path(labels: &[u8], number: usize, t: &[u8]) -> Result<PathRead, TextError>
    requires { Standing 6 number labels.now }
    ensures { PathTold (labels_at number labels.now) t.now result }
{
    let mut path = Ok(PathRead {
        count: 0,
        path: [0; SLOT],
    });
    if t == b".".as_slice() {
        return path;
    }
    for piece in t.split(|&b| b == b'.') {
        path = add_symbol(path, symbol_of(labels, number, piece));
    }
    path
}
