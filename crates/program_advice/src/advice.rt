// The candidates in their order, each decided, and those that follow printed as keys in plain text.
ghost use Rattle.std.specs.Prelude.{◌≡◌, true};
ghost use Rattle.program_advice.specs.Advice.{Follows};

use crate::candidates::{put_cut, put_with_path};
use crate::keys::{keys_of, path_at, target_of};
use op_answers::Decision;
use op_decide::decide;
use op_write_line::write_line;
use program_layout::parts::part;
use std::io;

// "at most 16"
pub const MOST_KEYS: usize = 16;

// The head, a context and a target with 16 symbols in all, 5 key paths of 8, four lengths and counts more: 72 bytes have room.
const CANDIDATE_ROOM: usize = 128;

// 64 keys of 4 key paths
const MOST_PATHS: usize = 256;

// A profile, and a question that it does not imply.
#[derive(Clone, Copy, Debug)]
struct Asked<'a> {
    profile: &'a [u8],
    question: &'a [u8],
}

// The decider says that the key follows.
fn follows(profile: &[u8], candidate: &[u8], answer: &mut [u8]) -> bool
    ensures { result ≡ true → Follows profile.now candidate.now }
{
    match decide(profile, candidate, answer) {
        Ok(Decision::Implied(_)) => true,
        Ok(Decision::NotImplied(_)) => false,
        Err(_) => false,
    }
}

// A key is printed only where it follows: the `requires` is what `follows` gives.
fn print_key(rt: &impl Print, profile: &[u8], candidate: &[u8], answer: &mut [u8]) -> io::Result<()>
    requires { Follows profile.now candidate.now }
{
    if let Ok(used) = write_line(profile, candidate, answer) {
        rt.write_all(part(answer, 0, used))?;
        println!(rt)?;
    }
    Ok(())
}

// Prints a candidate that follows. Here and below `printed` is how many keys were printed before, and the answer how many are now.
fn print_candidate(
    rt: &impl Print,
    profile: &[u8],
    candidate: &[u8],
    printed: usize,
    answer: &mut [u8],
) -> io::Result<usize> {
    if MOST_KEYS <= printed {
        return Ok(printed);
    }
    if follows(profile, candidate, answer) {
        print_key(rt, profile, candidate, answer)?;
        return Ok(printed + 1);
    }
    Ok(printed)
}

fn print_cut(
    rt: &impl Print,
    asked: Asked,
    cut: usize,
    printed: usize,
    answer: &mut [u8],
) -> io::Result<usize> {
    let mut candidate = [0u8; CANDIDATE_ROOM];
    let used = put_cut(&mut candidate, asked.question, cut);
    print_candidate(
        rt,
        asked.profile,
        part(&candidate, 0, used),
        printed,
        answer,
    )
}

// "the same key inside a longer context (T cut at each place)"
fn print_cuts(rt: &impl Print, asked: Asked, answer: &mut [u8]) -> io::Result<usize> {
    let mut printed = 0;
    for cut in 1..target_of(asked.question).len() {
        printed = print_cut(rt, asked, cut, printed, answer)?;
    }
    Ok(printed)
}

fn print_with_path(
    rt: &impl Print,
    asked: Asked,
    path: &[u8],
    printed: usize,
    answer: &mut [u8],
) -> io::Result<usize> {
    let mut candidate = [0u8; CANDIDATE_ROOM];
    let used = put_with_path(&mut candidate, asked.question, path);
    print_candidate(
        rt,
        asked.profile,
        part(&candidate, 0, used),
        printed,
        answer,
    )
}

// A path stands among the first n key paths of the keys.
fn tried(keys: &[u8], path: &[u8], n: usize) -> bool {
    (0..n).any(|i| path_at(keys, i).is_some_and(|other| other == path))
}

// "with one key path more, taken from the key paths of profile keys that fit": one that stands in S already is refused as repeated.
fn print_paths(
    rt: &impl Print,
    asked: Asked,
    before: usize,
    answer: &mut [u8],
) -> io::Result<usize> {
    let keys = keys_of(asked.profile);
    let mut printed = before;
    for n in 0..MOST_PATHS {
        let Some(path) = path_at(keys, n) else {
            break;
        };
        if !tried(keys, path, n) {
            printed = print_with_path(rt, asked, path, printed, answer)?;
        }
    }
    Ok(printed)
}

// For a question that is not implied: the keys near it that follow, or that there are none.
pub fn print_near(
    rt: &impl Print,
    profile: &[u8],
    question: &[u8],
    answer: &mut [u8],
) -> io::Result<()> {
    let asked = Asked { profile, question };
    let cuts = print_cuts(rt, asked, answer)?;
    if print_paths(rt, asked, cuts, answer)? == 0 {
        println!(rt; "nothing near")?;
    }
    Ok(())
}
