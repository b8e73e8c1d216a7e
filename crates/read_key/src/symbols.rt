// 4: "symbol not 0, 1 or declared; doubled 0; path too long; 0 in a key path".
ghost use Rattle.std.specs.Prelude.{◌≡◌};
ghost use Rattle.meaning.specs.Lists.{every};
ghost use Rattle.meaning.specs.Paths.{normal, simple};
ghost use Rattle.read_record.specs.Classes.{is_symbol_by, good_path_by, good_symbols_by};
ghost use Rattle.read_record.specs.Seen.{seen};
ghost use Rattle.read_key.specs.Symbols.{limits_of, good_key_path};

use read_record::key::Key;

// "Symbol 0 in a path is the any-path"; "Label 1 is text."
pub const ANY_PATH: u8 = 0;

pub const TEXT: u8 = 1;
// A label that the profile does not declare.
pub const UNDECLARED: u8 = 0;

// "symbol not 0, 1 or declared"
pub fn is_symbol(s: u8, classes: &[u8; 256]) -> bool
    ensures { result ≡ is_symbol_by classes.now s }
{
    match s {
        ANY_PATH | TEXT => true,
        _ => classes[usize::from(s)] != UNDECLARED,
    }
}

pub fn all_symbols(p: &[u8], classes: &[u8; 256]) -> bool
    ensures { result ≡ every (is_symbol_by classes.now) p.now }
{
    p.iter().all(|&s| is_symbol(s, classes))
}

// "A path is in normal form if no two 0 stand together."
pub fn is_normal(p: &[u8]) -> bool
    ensures { result ≡ normal p.now }
{
    for i in 1..p.len() {
        if p[i - 1] == ANY_PATH && p[i] == ANY_PATH {
            return false;
        }
    }
    true
}

// The any-path does not occur in it.
pub fn is_simple(p: &[u8]) -> bool
    ensures { result ≡ simple p.now }
{
    p.iter().all(|&s| s != ANY_PATH)
}

pub fn good_path(p: &[u8], classes: &[u8; 256], limit: usize) -> bool
    ensures { result ≡ good_path_by classes.now limit p.now }
{
    p.len() <= limit && all_symbols(p, classes) && is_normal(p)
}

// ".. 0 in a key path"
pub fn good_key_path(p: &[u8], classes: &[u8; 256], limit: usize) -> bool
    ensures { result ≡ good_key_path classes.now limit p.now }
{
    good_path(p, classes, limit) && is_simple(p)
}

// Every key path, also of those beyond the allowed number.
pub fn good_key_paths(key: &Key, classes: &[u8; 256], limit: usize) -> bool
    ensures { result ≡ every (good_key_path classes.now limit) (seen key.now).paths }
{
    key.paths().all(|path| good_key_path(path, classes, limit))
}

pub fn good_symbols(key: &Key, classes: &[u8; 256], symbols: usize, path_symbols: usize) -> bool
    ensures { result ≡ good_symbols_by classes.now (limits_of symbols path_symbols 0) (seen key.now) }
{
    good_path(key.context(), classes, symbols)
        && good_path(key.target(), classes, symbols)
        && good_key_paths(key, classes, path_symbols)
}
