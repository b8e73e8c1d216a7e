// The class of a label by the table of a profile.
ghost use Rattle.std.specs.Prelude.{◌≡◌, ◌<◌};
ghost use Rattle.meaning.specs.Paths.{is_element, is_attribute};
ghost use Rattle.read_record.specs.Classes.{class_by};

use crate::limits::{FILLER_ATTRIBUTE, TEXT};

// "class (1 element, 2 attribute)"
const ATTRIBUTE_CLASS: u8 = 2;

pub fn is_attribute(classes: &[u8; 256], label: usize) -> bool
    requires { label < 256 }
    ensures { result ≡ is_attribute (class_by classes.now label) }
{
    match label {
        TEXT => false,
        FILLER_ATTRIBUTE => true,
        _ => classes[label] == ATTRIBUTE_CLASS,
    }
}

pub fn is_element(classes: &[u8; 256], label: usize) -> bool
    requires { label < 256 }
    ensures { result ≡ is_element (class_by classes.now label) }
{
    label != TEXT && !is_attribute(classes, label)
}
