// What may be wrong with a part of a line, and which of two errors counts.
ghost use Rattle.std.specs.Prelude.{◌≡◌};
ghost use Rattle.read_symbols.specs.Outcomes.{both};

// 18: "name not in the profile or there with the other class"; 17: "not a line of the grammar". "17 first": so it is the greater.
#[derive(Clone, Copy, Debug, PartialEq, Eq, PartialOrd, Ord)]
pub enum TextError {
    UnknownName,
    NotALine,
}

// Two parts together: what both say, or the greater error.
pub fn both<A: Drop, B: Drop>(
    first: Result<A, TextError>,
    second: Result<B, TextError>,
) -> Result<(A, B), TextError>
    ensures { result ≡ both first second }
{
    match (first, second) {
        (Ok(a), Ok(b)) => Ok((a, b)),
        (Ok(_), Err(error)) | (Err(error), Ok(_)) => Err(error),
        (Err(one), Err(other)) => Err(one.max(other)),
    }
}
