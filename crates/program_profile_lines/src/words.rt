// The words of a line, with exactly one space between them.
ghost use Rattle.std.specs.Prelude.{◌+◌, ◌≤◌, length, IfSome};

use program_files::number_in;

// The first word, and what stands behind the first space: nothing where there is none.
pub fn split_word(line: &[u8]) -> (&[u8], &[u8])
    ensures { length result.0.now + length result.1.now ≤ length line.now }
{
    match line.iter().position(|&b| b == b' ') {
        Some(end) => (&line[..end], &line[end + 1..]),
        None => (line, &line[line.len()..]),
    }
}

const MOST_DIGITS: usize = 3;

const MOST: usize = 255;

// The number of a byte in one to three decimal digits, no 0 in front (0 itself is `0`): a text has one spelling.
pub fn byte_in(word: &[u8]) -> Option<usize>
    ensures { IfSome result (λ n. n ≤ 255) }
{
    if MOST_DIGITS < word.len() || 1 < word.len() && word[0] == b'0' {
        return None;
    }
    number_in(word).filter(|n| *n <= MOST)
}
