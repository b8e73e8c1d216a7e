// The answer buffer that is lent to an operation. It holds a pattern before each case, so that a byte changed behind those used shows: the answer is
// then the line `changed`, which no case wants.
ghost use Rattle.std.specs.Prelude.{◌≤◌, length};

use op_answers::Refusal;
use std::io;

// Byte i of the pattern is i % PERIOD: a prime, so that no run of a power of two bytes repeats it.
const PERIOD: usize = 251;

fn pattern(i: usize) -> u8 {
    (i % PERIOD) as u8
}

// Puts the pattern into all of the buffer.
pub fn fill(answer: &mut [u8]) {
    for (i, byte) in answer.iter_mut().enumerate() {
        *byte = pattern(i);
    }
}

// The first period from that byte on, or what there is of it, holds the pattern.
fn begins_unchanged(answer: &[u8], from: usize) -> bool {
    answer
        .iter()
        .enumerate()
        .skip(from)
        .take(PERIOD)
        .all(|(i, &byte)| byte == pattern(i))
}

// Each byte that stands a period or more behind that one is the byte a period before it.
fn repeats(answer: &[u8], from: usize) -> bool
    requires { from ≤ length answer.now }
{
    let rest = &answer[from..];
    rest.len() < PERIOD || &rest[PERIOD..] == &rest[..rest.len() - PERIOD]
}

// From that byte on the buffer holds the pattern.
fn is_unchanged(answer: &[u8], from: usize) -> bool
    requires { from ≤ length answer.now }
{
    begins_unchanged(answer, from) && repeats(answer, from)
}

fn changed(rt: &impl Print, answer: &mut [u8]) -> io::Result<()> {
    println!(rt; "changed")?;
    fill(answer);
    Ok(())
}

// The line of a refusal, which changes no byte.
pub fn refused(rt: &impl Print, refusal: Refusal, answer: &mut [u8]) -> io::Result<()> {
    if !is_unchanged(answer, 0) {
        return changed(rt, answer);
    }
    println!(rt; "{refusal}")
}

// The line with the bytes used, and these bytes. Behind them nothing is changed; they get the pattern again.
pub fn filled(rt: &impl Print, word: &str, used: usize, answer: &mut [u8]) -> io::Result<()> {
    if used > answer.len() || !is_unchanged(answer, used) {
        return changed(rt, answer);
    }
    println!(rt; "{word} {used}")?;
    rt.write_all(&answer[..used])?;
    fill(&mut answer[..used]);
    Ok(())
}
