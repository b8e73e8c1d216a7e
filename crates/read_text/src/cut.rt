// A line cut at its marks: "exactly one space after each comma" and nowhere else.
ghost use Rattle.std.specs.Prelude.{◌≡◌};
ghost use Rattle.theory_text.specs.Reading.{up_to, from_the};
ghost use Rattle.read_text.specs.Cutting.{CutOf};

// The texts of a line's context, target and set.
#[derive(Clone, Copy, Debug, PartialEq, Eq)]
pub struct Cut<'a> {
    pub context: &'a [u8],
    pub target: &'a [u8],
    pub set: &'a [u8],
}

// What stands before the next such byte, and what stands from it on: all and nothing where there is none.
fn cut_at(text: &[u8], stop: u8) -> (&[u8], &[u8])
    ensures before { result.0.now ≡ up_to stop text.now }
    ensures behind { result.1.now ≡ from_the stop text.now }
{
    let end = text.iter().position(|&b| b == stop).unwrap_or(text.len());
    text.split_at(end)
}

// A comma ends a path's text, and a brace the set's: neither stands in it.
pub fn cut_line(line: &[u8]) -> Option<Cut<'_>>
    ensures { CutOf line.now result }
{
    let (context, rest) = cut_at(line.strip_prefix(b"(")?, b',');
    let (target, rest) = cut_at(rest.strip_prefix(b", (")?, b',');
    let (set, rest) = cut_at(rest.strip_prefix(b", {")?, b'}');
    let end = rest.strip_prefix(b"}))")?;
    end.is_empty().then_some(Cut {
        context,
        target,
        set,
    })
}
