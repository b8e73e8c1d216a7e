// The key paths of a question in plain text: what stands between the braces of its line, cut at the commas. No name has a comma or a brace.

// What stands before the first such byte: all where there is none.
fn before(text: &[u8], byte: u8) -> &[u8] {
    match text.iter().position(|&b| b == byte) {
        Some(at) => &text[..at],
        None => text,
    }
}

// What stands behind it.
fn behind(text: &[u8], byte: u8) -> &[u8] {
    match text.iter().position(|&b| b == byte) {
        Some(at) => &text[at + 1..],
        None => &text[text.len()..],
    }
}

pub fn key_paths(line: &[u8]) -> &[u8] {
    before(behind(line, b'{'), b'}')
}

// One of the key paths: between two a comma and a space.
pub fn key_path(paths: &[u8], j: usize) -> &[u8] {
    let mut rest = paths;
    for _ in 0..j {
        rest = behind(behind(rest, b','), b' ');
    }
    before(rest, b',')
}
