// "read and rewrite a profile"; "give the body of record n of a checked profile".
ghost use Rattle.std.specs.Prelude.{◌≡◌};
ghost use Rattle.meaning.specs.Records.{record_body};
ghost use Rattle.meaning.specs.Operations.{Rewrites, body_at};
ghost use Rattle.op_answers.specs.Cases.{rewriting_answer};

use op_accept::accept_profile;
use op_answers::{Refusal, has_room};
use read_record::fields::{HEAD_BYTES, word};
use read_walker::record_at;
use write_bytes::put;

// On acceptance the profile's own bytes stand at the front of the answer buffer and every byte behind them stays; a refusal changes no byte.
pub fn rewrite(profile: &[u8], answer: &mut [u8]) -> Result<usize, Refusal>
    ensures { Rewrites profile.now answer.old (rewriting_answer result answer.new) }
{
    has_room(answer)?;
    accept_profile(profile)?;
    Ok(put(answer, 0, profile))
}

// The body of the record at the front of what is left of a checked profile; nothing where nothing is left.
pub fn body_at_front(rest: &[u8]) -> &[u8]
    ensures { result.now ≡ record_body rest.now }
{
    if rest.len() < HEAD_BYTES {
        return &rest[..0];
    }
    let end = word(rest, 0);
    if end < HEAD_BYTES {
        return &rest[..0];
    }
    if rest.len() < end {
        return &rest[HEAD_BYTES..];
    }
    &rest[HEAD_BYTES..end]
}

// A part of the caller's profile, neither copied nor an offset; the empty part where the profile is refused or has no record n.
pub fn body(profile: &[u8], n: usize) -> &[u8]
    ensures { result.now ≡ body_at profile.now n }
{
    match accept_profile(profile) {
        Ok(_) => body_at_front(record_at(profile, n)),
        Err(_) => &profile[..0],
    }
}
