// One symbol.
ghost use Rattle.read_entry.specs.Labels.{labels_at};
ghost use Rattle.read_entry.specs.Repeats.{Standing};
ghost use Rattle.read_symbols.specs.Symbols.{NameTold, SymbolTold};

use crate::errors::TextError;
use read_key::symbols::{ANY_PATH, TEXT};
use read_labels::named::label_named;
use read_record::names::is_name;

// The classes of a label record
const ELEMENT: usize = 1;

const ATTRIBUTE: usize = 2;

// The number of a label by its name.
fn named(labels: &[u8], count: usize, class: usize, name: &[u8]) -> Result<u8, TextError>
    requires { Standing 6 count labels.now }
    ensures { NameTold (labels_at count labels.now) class name.now result }
{
    if !is_name(name) {
        return Err(TextError::NotALine);
    }
    label_named(labels, count, class, name).ok_or(TextError::UnknownName)
}

// The symbol that a text says: its number, unless the text is of no symbol, or the name of no label.
pub fn symbol_of(labels: &[u8], count: usize, t: &[u8]) -> Result<u8, TextError>
    requires { Standing 6 count labels.now }
    ensures { SymbolTold (labels_at count labels.now) t.now result }
{
    if t == b"_*".as_slice() {
        return Ok(ANY_PATH);
    }
    if t == b"#".as_slice() {
        return Ok(TEXT);
    }
    match t.strip_prefix(b"@") {
        Some(name) => named(labels, count, ATTRIBUTE, name),
        None => named(labels, count, ELEMENT, t),
    }
}
