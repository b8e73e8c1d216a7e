// The names of labels, as keys in plain text have them: `@` before attributes, `#` for text; and of the labels that no profile declares.
use crate::parts::{after_record, byte_at, first_record, part, record_kind};
use read_record::bodies::LABEL_KIND;
use read_record::limits::{FILLER_ATTRIBUTE, FILLER_ELEMENT, ROOT_LABEL, TEXT};
use std::io;

// Where number, class and name stand in a label's record: behind its head
pub const NUMBER_AT: usize = 4;

pub const CLASS_AT: usize = 5;

pub const NAME_AT: usize = 6;

pub const ATTRIBUTE_CLASS: usize = 2;

// What the class of a node's label is: attributes and text have values.
pub fn has_value(profile: &[u8], label: usize) -> bool {
    label == TEXT
        || label == FILLER_ATTRIBUTE
        || byte_at(label_record(profile, label), CLASS_AT) == ATTRIBUTE_CLASS
}

fn declares(record: &[u8], label: usize) -> bool {
    record_kind(record) == LABEL_KIND && byte_at(record, NUMBER_AT) == label
}

// The record that declares a label: the empty part where none does.
pub fn label_record(profile: &[u8], label: usize) -> &[u8] {
    let mut rest = profile;
    // Stays a `while`: because the rest gets shorter until its label stands at the front; nothing is counted.
    while !rest.is_empty() {
        let record = first_record(rest);
        if declares(record, label) {
            return record;
        }
        rest = after_record(rest);
    }
    rest
}

fn print_declared(rt: &impl Print, record: &[u8]) -> io::Result<()> {
    if byte_at(record, CLASS_AT) == ATTRIBUTE_CLASS {
        print!(rt; "@")?;
    }
    rt.write_all(part(record, NAME_AT, record.len()))
}

pub fn print_label(rt: &impl Print, profile: &[u8], label: usize) -> io::Result<()> {
    match label {
        TEXT => print!(rt; "#"),
        ROOT_LABEL => print!(rt; "root"),
        FILLER_ELEMENT => print!(rt; "any"),
        FILLER_ATTRIBUTE => print!(rt; "@any"),
        _ => print_declared(rt, label_record(profile, label)),
    }
}

fn declared_width(record: &[u8]) -> usize {
    let name = part(record, NAME_AT, record.len());
    if byte_at(record, CLASS_AT) == ATTRIBUTE_CLASS {
        return name.len() + 1;
    }
    name.len()
}

// How many places `print_label` takes.
pub fn label_width(profile: &[u8], label: usize) -> usize {
    match label {
        TEXT => 1,
        ROOT_LABEL => 4,
        FILLER_ELEMENT => 3,
        FILLER_ATTRIBUTE => 4,
        _ => declared_width(label_record(profile, label)),
    }
}
