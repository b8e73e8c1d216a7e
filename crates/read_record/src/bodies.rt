// Where a record and its body end.
ghost use Rattle.std.specs.Prelude.{◌≡◌, true};
ghost use Rattle.meaning.specs.Records.{read_key, is_some, body_ends};
ghost use Rattle.meaning.specs.Refusals.{whole as whole_record};
ghost use Rattle.read_record.specs.BodyParts.{holds_path, lead_path, after_path, paths_end};

use crate::fields::{HEAD_BYTES, KIND_AT, word};

// The kinds of record
pub const LABEL_KIND: usize = 1;

pub const KEY_KIND: usize = 2;

pub const NODE_KIND: usize = 3;

pub const LINE_KIND: usize = 4;

pub const WIDE_KIND: usize = 5;

pub const EDITION_KIND: usize = 6;
// "number, class .., name, the rest"; "parent (2), label (1), value (2)", or value (4); "rule (1), first premise (2), second premise (2), a key body"
pub const LABEL_FIELDS: usize = 2;

pub const NODE_BODY: usize = 5;

pub const WIDE_BODY: usize = 7;

pub const LINE_FIELDS: usize = 5;

// "length and symbols": a path stands whole at the front.
pub fn holds_path(l: &[u8]) -> bool
    ensures { result ≡ holds_path l.now }
{
    if l.len() == 0 {
        return false;
    }
    usize::from(l[0]) <= l.len() - 1
}

// The symbols of the path at the front.
pub fn lead_path(l: &[u8]) -> &[u8]
    requires { holds_path l.now ≡ true }
    ensures { result.now ≡ lead_path l.now }
{
    let end = usize::from(l[0]) + 1;
    &l[1..end]
}

// What stands behind the path at the front.
pub fn after_path(l: &[u8]) -> &[u8]
    requires { holds_path l.now ≡ true }
    ensures { result.now ≡ after_path l.now }
{
    let end = usize::from(l[0]) + 1;
    &l[end..]
}

// So many paths stand here, to the end.
pub fn paths_end(l: &[u8], count: usize) -> bool
    ensures { result ≡ paths_end count l.now }
{
    let mut rest = l;
    for _ in 0..count {
        if !holds_path(rest) {
            return false;
        }
        rest = after_path(rest);
    }
    rest.is_empty()
}

// "length and symbols of C; of T; count of key paths; length and symbols of each"
pub fn key_shape(body: &[u8]) -> bool
    ensures { result ≡ is_some (read_key body.now) }
{
    if !holds_path(body) {
        return false;
    }
    let behind = after_path(body);
    if !holds_path(behind) {
        return false;
    }
    let set = after_path(behind);
    if set.len() == 0 {
        return false;
    }
    paths_end(&set[1..], usize::from(set[0]))
}

// "its body does not end exactly where its kind says"; an unknown kind says nothing of its body
pub fn body_ends(kind: usize, body: &[u8]) -> bool
    ensures { result ≡ body_ends kind body.now }
{
    match kind {
        LABEL_KIND => LABEL_FIELDS <= body.len(),
        KEY_KIND => key_shape(body),
        NODE_KIND => body.len() == NODE_BODY,
        WIDE_KIND => body.len() == WIDE_BODY,
        LINE_KIND => LINE_FIELDS <= body.len() && key_shape(&body[LINE_FIELDS..]),
        EDITION_KIND => body.len() == 1,
        _ => true,
    }
}

// 1: "a record is shorter than 4 or runs past the end, or its body does not end exactly where its kind says"
pub fn whole(l: &[u8]) -> bool
    ensures { result ≡ whole_record l.now }
{
    if l.len() < HEAD_BYTES {
        return false;
    }
    let end = word(l, 0);
    if end < HEAD_BYTES {
        return false;
    }
    if l.len() < end {
        return false;
    }
    body_ends(word(l, KIND_AT), &l[HEAD_BYTES..end])
}
