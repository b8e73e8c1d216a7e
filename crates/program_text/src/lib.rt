// Lines of text as files have them: a file's line may end with a newline, which is no part of it.
#![tactic(auto)]

ghost use Rattle.std.specs.Prelude.{◌≡◌};
ghost use Rattle.program_text.specs.Bare.{bare_line};

const NEWLINE: &[u8] = b"\n";

// The line of a file: one newline at its end is taken off. Any other is the line's own, and 17 refuses it.
pub fn bare(line: &[u8]) -> &[u8]
    ensures { result.now ≡ bare_line line.now }
{
    line.strip_suffix(NEWLINE).unwrap_or(line)
}
