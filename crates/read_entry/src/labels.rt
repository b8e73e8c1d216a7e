// Label records of a profile: document 01, refusal 3.
ghost use Rattle.std.specs.Prelude.{◌≡◌, ◌≤◌, length};
ghost use Rattle.meaning.specs.Records.{read_label};
ghost use Rattle.meaning.specs.Refusals.{good_label};
ghost use Rattle.read_entry.specs.Labels.{Highest, labels_at, is_class};
ghost use Rattle.read_entry.specs.Repeats.{Standing};

use crate::repeats::part_used;
use read_record::names::is_name;

// "Labels 2 to 200 are declared as element or attribute."
const FIRST_DECLARED: usize = 2;

const LAST_DECLARED: usize = 200;
// The classes of a label record
const ELEMENT: usize = 1;

const ATTRIBUTE: usize = 2;
// "number, class .., name, the rest": where they stand in the body, and the name in its record
const CLASS_AT: usize = 1;

const NAME_AT: usize = 2;

const NAME_IN_RECORD: usize = 6;

// "class (1 element, 2 attribute)"
fn is_class(class: usize) -> bool
    ensures { result ≡ is_class class }
{
    class == ELEMENT || class == ATTRIBUTE
}

// 3: "label number outside 2..200 or not ascending; class; name ill-formed or used before"
pub fn good_label(bytes: &[u8], count: usize, last: usize, body: &[u8]) -> bool
    requires { Standing 6 count bytes.now × Highest (labels_at count bytes.now) last × (2 ≤ length body.now) }
    ensures { result ≡ good_label (labels_at count bytes.now) (read_label body.now) }
{
    let number = usize::from(body[0]);
    if number < FIRST_DECLARED {
        return false;
    }
    if LAST_DECLARED < number {
        return false;
    }
    if number <= last {
        return false;
    }
    if !is_class(usize::from(body[CLASS_AT])) {
        return false;
    }
    let name = &body[NAME_AT..];
    if !is_name(name) {
        return false;
    }
    !part_used(bytes, count, NAME_IN_RECORD, name)
}
