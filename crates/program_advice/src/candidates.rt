// Questions near a question, put together in a lent buffer. What they are is not proved: whatever stands there, the decider judges it.
use crate::keys::{behind, context_of, key_body, lead, set_of, target_of};
use program_layout::parts::{byte_at, part};
use program_records::{append, append_byte, append_head};
use read_record::bodies::KEY_KIND;
use read_record::fields::HEAD_BYTES;

// Two paths behind each other as one, with its length.
fn append_joined(out: &mut [u8], at: usize, path: &[u8], other: &[u8]) -> usize {
    let first = append_byte(out, at, 0);
    let second = append(out, first, path);
    let end = append(out, second, other);
    append_byte(out, at, end.saturating_sub(first));
    end
}

// "Joining two paths removes doubled 0": how many symbols of the second are left out.
fn doubled(path: &[u8], other: &[u8]) -> usize {
    usize::from(path.ends_with(&[0]) && other.starts_with(&[0]))
}

// (C.X, (Y, S)), where T is X of so many symbols and then Y: how many bytes the record has.
pub fn put_cut(out: &mut [u8], question: &[u8], cut: usize) -> usize {
    let context = context_of(question);
    let target = target_of(question);
    let moved = part(target, doubled(context, target), cut);
    let target_at = append_joined(out, HEAD_BYTES, context, moved);
    let set_at = append_joined(out, target_at, part(target, cut, target.len()), b"");
    let end = append(out, set_at, set_of(question));
    append_head(out, 0, end, KEY_KIND);
    end
}

// How many bytes of a set stand before a path's place in it: the count, and the key paths that precede it.
fn place_in(set: &[u8], path: &[u8]) -> usize {
    let mut rest = part(set, 1, set.len());
    for _ in 0..byte_at(set, 0) {
        if lead(rest) >= path {
            break;
        }
        rest = behind(rest);
    }
    set.len().saturating_sub(rest.len())
}

// (C, (T, S and P)): how many bytes the record has.
pub fn put_with_path(out: &mut [u8], question: &[u8], path: &[u8]) -> usize {
    let body = key_body(question);
    let set = set_of(question);
    let place = place_in(set, path);
    let set_at = append(
        out,
        HEAD_BYTES,
        part(body, 0, body.len().saturating_sub(set.len())),
    );
    let paths_at = append_byte(out, set_at, byte_at(set, 0) + 1);
    let path_at = append(out, paths_at, part(set, 1, place));
    let later_at = append(out, path_at, path);
    let end = append(out, later_at, part(set, place, set.len()));
    append_head(out, 0, end, KEY_KIND);
    end
}
