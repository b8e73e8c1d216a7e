// "test inclusion of two paths": "a profile and two bare paths (up to 32 symbols) as inputs 2 and 3".
ghost use Rattle.std.specs.Prelude.{List, ℕ};
ghost use Rattle.meaning.specs.Operations.{Includes};
ghost use Rattle.op_accept.specs.Taken.{AcceptedWith, Tables};
ghost use Rattle.op_answers.specs.Cases.{inclusion_answer};
ghost use Rattle.op_profile.specs.Judging.{PathJudged};

use op_accept::accept_profile;
use op_answers::{Input, Refusal};
use path_words::included;
use read_judged::RefusalKind;
use read_key::symbols::good_path;
use read_key::validity::is_valid;

const BARE_PATH: usize = 32;

// "gives 4, or 6 for the path alone".
fn judge_path(path: &[u8], classes: &[u8; 256], input: Input) -> Result<(), Refusal>
    ensures { PathJudged classes.now path.now input result }
{
    if !good_path(path, classes, BARE_PATH) {
        return Err(Refusal {
            kind: RefusalKind::BadSymbols,
            input,
            place: 0,
        });
    }
    if !is_valid(path, classes) {
        return Err(Refusal {
            kind: RefusalKind::NotValid,
            input,
            place: 0,
        });
    }
    Ok(())
}

// The answer for two paths under an accepted profile, of which only the class table is needed.
fn include_paths(path: &[u8], other: &[u8], classes: &[u8; 256]) -> Result<bool, Refusal>
    requires { Tables classes.now }
    ensures { (profile : List ℕ) → AcceptedWith profile classes.now → Includes profile path.now other.now (inclusion_answer result) }
{
    judge_path(path, classes, Input::Question)?;
    judge_path(other, classes, Input::TreeOrProof)?;
    Ok(included(path, other))
}

// Included or not, exactly: every valid word of the one, over all labels with 201 and 202, is a word of the other.
pub fn include(profile: &[u8], path: &[u8], other: &[u8]) -> Result<bool, Refusal>
    ensures { Includes profile.now path.now other.now (inclusion_answer result) }
{
    let accepted = accept_profile(profile)?;
    include_paths(path, other, &accepted.classes)
}
