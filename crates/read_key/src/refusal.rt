// The first of 4, 5 and 6 that a key gives.
ghost use Rattle.std.specs.Prelude.{◌≡◌};
ghost use Rattle.meaning.specs.Refusals.{first_of};
ghost use Rattle.read_judged.specs.Answers.{told};
ghost use Rattle.read_record.specs.Classes.{key_tests_by};
ghost use Rattle.read_record.specs.Seen.{seen};
ghost use Rattle.read_key.specs.Symbols.{limits_of};

use crate::order::good_set;
use crate::symbols::good_symbols;
use crate::validity::all_valid;
use read_judged::RefusalKind;
use read_record::key::Key;

// How many symbols context and target may have, how many a key path, and how many key paths there may be.
#[derive(Clone, Copy, Debug, PartialEq, Eq)]
pub struct Limits {
    pub symbols: usize,
    pub path_symbols: usize,
    pub paths: usize,
}

// 4 before 5 before 6: the first that the key gives.
pub fn key_refusal(key: &Key, classes: &[u8; 256], limits: Limits) -> Result<(), RefusalKind>
    ensures { told result ≡ first_of (key_tests_by classes.now (limits_of limits.symbols limits.path_symbols limits.paths) (seen key.now)) }
{
    if !good_symbols(key, classes, limits.symbols, limits.path_symbols) {
        return Err(RefusalKind::BadSymbols);
    }
    if !good_set(key, limits.paths) {
        return Err(RefusalKind::BadKeyPaths);
    }
    if !all_valid(key, classes) {
        return Err(RefusalKind::NotValid);
    }
    Ok(())
}
