// Why a line follows: the rule by its name and what it was taken from.
use program_layout::parts::{byte_at, word_at};
use read_record::fields::HEAD_BYTES;
use read_record::limits::{
    CITATION, CONTEXT_PATH, CONTEXT_TARGET, EPSILON, INTERACTION, ONE_ATTRIBUTE, PREFIX_EPSILON,
    SUBNODES, SUBNODES_EPSILON, SUPERKEY, TARGET_PATH,
};
use rule_premises::{FIRST_AT, SECOND_AT};
use std::io;

// The rules which have premises among the lines
fn rule_name(rule: usize) -> &'static str {
    match rule {
        PREFIX_EPSILON => "prefix-epsilon",
        SUPERKEY => "superkey",
        SUBNODES => "subnodes",
        CONTEXT_PATH => "context path",
        TARGET_PATH => "target path",
        CONTEXT_TARGET => "context target",
        SUBNODES_EPSILON => "subnodes-epsilon",
        _ => "interaction",
    }
}

// "4 proof line: rule (1), first premise (2), second premise (2), a key body"
pub fn print_reason(rt: &impl Print, record: &[u8]) -> io::Result<()> {
    let rule = byte_at(record, HEAD_BYTES);
    let first = word_at(record, HEAD_BYTES + FIRST_AT);
    let second = word_at(record, HEAD_BYTES + SECOND_AT);
    match rule {
        // "Rule 0 cites key number *first premise* of the profile."
        CITATION => print!(rt; "key {first} of the profile"),
        EPSILON => print!(rt; "epsilon"),
        ONE_ATTRIBUTE => print!(rt; "single attribute"),
        INTERACTION => print!(rt; "interaction, from {first} and {second}"),
        _ => print!(rt; "{}, from {first}", rule_name(rule)),
    }
}
