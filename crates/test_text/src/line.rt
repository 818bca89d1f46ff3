//! Lines, and their words.

use gate_bytes::{MOST_DIGITS, read_decimal, split_once};

/// The next line of a text, without its line feed, and what is left behind it; nothing where no text is left. The last
/// line needs no line feed.
pub fn next_line(text: &[u8]) -> Option<(&[u8], &[u8])> {
    if text.is_empty() {
        return None;
    }
    Some(split_once(b'\n', text).unwrap_or((text, b"")))
}

/// The first word of a line, and what stands behind the space after it.
pub fn first_word(line: &[u8]) -> (&[u8], &[u8]) {
    split_once(b' ', line).unwrap_or((line, b""))
}

/// The number that the first word of a line is, and what stands behind the space after it.
pub fn first_number(line: &[u8]) -> Option<(u64, &[u8])> {
    let (word, rest) = first_word(line);
    Some((read_decimal(word, MOST_DIGITS)?, rest))
}
