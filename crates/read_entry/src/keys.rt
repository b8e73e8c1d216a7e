// Key records of a profile or a question, and lines of a proof, each judged at the front of the rest of its input.
ghost use Rattle.std.specs.Prelude.{◌≡◌, []};
ghost use Rattle.meaning.specs.Refusals.{first_of};
ghost use Rattle.theory_records.specs.HeadTests.{head_tests};
ghost use Rattle.read_judged.specs.Answers.{told};
ghost use Rattle.read_entry.specs.Keys.{key_record_tests_by, line_tests_by};

use read_judged::RefusalKind;
use read_key::refusal::{Limits, key_refusal};
use read_record::bodies::{KEY_KIND, LINE_KIND, whole};
use read_record::fields::{HEAD_BYTES, KIND_AT, too_many, word};
use read_record::key::Key;
use read_record::limits::{KEY_IN_LINE, LINE_SYMBOLS};

// "profile .. 64 keys"; "proof .. 256 lines"
const PROFILE_KEYS: usize = 64;

const PROOF_LINES: usize = 256;
// "a path of 8 symbols and 4 key paths in profile and question"
pub const KEY_LIMITS: Limits = Limits {
    symbols: 8,
    path_symbols: 8,
    paths: 4,
};
// "In a proof line, C and T may have 32 symbols, and there may be 64 key paths of 16."
const LINE_LIMITS: Limits = Limits {
    symbols: LINE_SYMBOLS,
    path_symbols: 16,
    paths: 64,
};

// 7, 1 or 2 of the record at the front, which is to be of this kind and stands after so many.
fn judge_head(rest: &[u8], kind: usize, limit: usize, count: usize) -> Result<(), RefusalKind>
    ensures { told result ≡ first_of (head_tests kind limit count rest.now []) }
{
    if too_many(rest, kind, limit, count) {
        return Err(RefusalKind::TooLarge);
    }
    if !whole(rest) {
        return Err(RefusalKind::NotWhole);
    }
    if word(rest, KIND_AT) != kind {
        return Err(RefusalKind::NotAllowed);
    }
    Ok(())
}

// The key record at the front, after so many keys: 7, 1, 2, then 4, 5, 6.
pub fn judge_key(rest: &[u8], keys: usize, classes: &[u8; 256]) -> Result<(), RefusalKind>
    ensures { told result ≡ first_of (key_record_tests_by classes.now keys rest.now) }
{
    judge_head(rest, KEY_KIND, PROFILE_KEYS, keys)?;
    let end = word(rest, 0);
    let key = Key::new(&rest[HEAD_BYTES..end]);
    key_refusal(&key, classes, KEY_LIMITS)
}

// The proof line at the front, after so many lines: 7, 1, 2, then 4, 5, 6. (Whether it follows, 9, is not asked here.)
pub fn judge_line(rest: &[u8], classes: &[u8; 256], lines: usize) -> Result<(), RefusalKind>
    ensures { told result ≡ first_of (line_tests_by classes.now lines rest.now) }
{
    judge_head(rest, LINE_KIND, PROOF_LINES, lines)?;
    let end = word(rest, 0);
    let key = Key::new(&rest[KEY_IN_LINE..end]);
    key_refusal(&key, classes, LINE_LIMITS)
}
