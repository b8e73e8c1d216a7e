// Names.
ghost use Rattle.std.specs.Prelude.{◌≡◌};
ghost use Rattle.meaning.specs.Refusals.{is_letter, in_name, is_name};

// "name, the rest, 1 to 32 bytes"
const LONGEST_NAME: usize = 32;

pub fn is_letter(b: u8) -> bool
    ensures { result ≡ is_letter b }
{
    b.is_ascii_alphabetic()
}

// "then letters, digits, `-`, `_`"
pub fn in_name(b: u8) -> bool
    ensures { result ≡ in_name b }
{
    b.is_ascii_alphanumeric() || b == b'-' || b == b'_'
}

// "1 to 32 bytes: ASCII letter first, then letters, digits, `-`, `_`"
pub fn is_name(name: &[u8]) -> bool
    ensures { result ≡ is_name name.now }
{
    if name.is_empty() {
        return false;
    }
    if LONGEST_NAME < name.len() {
        return false;
    }
    if !is_letter(name[0]) {
        return false;
    }
    name[1..].iter().all(|&b| in_name(b))
}
