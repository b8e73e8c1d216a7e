// 18: "name not in the profile or there with the other class".
ghost use Rattle.meaning.specs.Text.{label_named};
ghost use Rattle.read_entry.specs.Labels.{labels_at};
ghost use Rattle.read_entry.specs.Repeats.{Standing};
ghost use Rattle.read_labels.specs.Named.{Coded};

use read_record::fields::word;

// "number, class (1 element, 2 attribute), name, the rest": where they stand in a label's record
const NUMBER_AT: usize = 4;

const CLASS_AT: usize = 5;

const NAME_AT: usize = 6;

// The number of the label that has the name, where its class is the one typed.
pub fn label_named(labels: &[u8], count: usize, class: usize, name: &[u8]) -> Option<u8>
    requires { Standing 6 count labels.now }
    ensures { Coded (label_named (labels_at count labels.now) class name.now) result }
{
    let mut rest = labels;
    for _ in 0..count {
        let end = word(rest, 0);
        if &rest[NAME_AT..end] == name {
            return (usize::from(rest[CLASS_AT]) == class).then_some(rest[NUMBER_AT]);
        }
        rest = &rest[end..];
    }
    None
}
