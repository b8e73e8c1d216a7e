// The record walker: the input and a position in it. The place behind a record is the work of `step`.
ghost use Rattle.std.specs.Prelude.{◌≡◌, ◌-◌, length};
ghost use Rattle.std.specs.Iterator.{at_most};
ghost use Rattle.read_walker.specs.Steps.{place_after, Passes};

use crate::front_length;

// The place behind the record that stands at a place. It is the same place where nothing is left or the length is 0, and the end where the
// length says more than there is.
#[tactic(auto, using(crate::specs::Steps::after_end, crate::specs::Steps::after_past, crate::specs::Steps::after_next))]
pub fn step(input: &[u8], at: usize) -> usize
    ensures { result ≡ place_after input.now at }
{
    if input.len() <= at {
        return at;
    }
    let whole = front_length(&input[at..]);
    if input.len() - at < whole {
        return input.len();
    }
    at + whole
}

// The records of an input from a place on, up to one that does not move the place.
#[derive(Clone, Copy, Debug, PartialEq, Eq)]
pub struct Records<'a> {
    pub src: &'a [u8],
    pub at: usize,
}

impl<'a> Records<'a> {
    pub fn new(src: &'a [u8], at: usize) -> Records<'a>
        ensures { (result.src ≡ src.entry) × (result.at ≡ at) }
    {
        Records { src, at }
    }
}

impl<'a> Iterator for Records<'a> {
    type Item = &'a [u8];

    ghost remaining = { λ s. at_most (length s.src.now - s.at) };

    ghost next_gives = { λ s r t. (t.src ≡ s.src) × Passes s.src.now s.at r t.at };

    #[tactic(auto, using(crate::specs::Steps::after_moves))]
    fn next(&mut self) -> Option<&'a [u8]> {
        let after = step(self.src, self.at);
        if after == self.at {
            return None;
        }
        let record = &self.src[self.at..after];
        self.at = after;
        Some(record)
    }
}
