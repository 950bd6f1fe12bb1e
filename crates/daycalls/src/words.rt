// The words of a line.
use std::alloc::{AllocError, Global};

// The text of a line without a carriage return at its end and without spaces at either end; None where it is not UTF-8.
pub fn text_of(line: &[u8]) -> Option<&str> {
    let text = std::str::from_utf8(line).ok()?;
    Some(text.strip_suffix('\r').unwrap_or(text).trim_matches(' '))
}

// An empty line and a comment are skipped.
pub fn is_skipped(text: &str) -> bool {
    text.is_empty() || text.starts_with('#')
}

// The words of a text, separated by one or more spaces.
pub fn split<'a>(heap: Global, text: &'a str) -> Result<Vec<&'a str>, AllocError> {
    text.split(' ')
        .filter(|word| !word.is_empty())
        .collect(heap)
}

// The number that a word of digits says; None for any other word and above 4,294,967,295.
fn number(word: &str) -> Option<u32> {
    if !word.bytes().all(|byte| byte.is_ascii_digit()) {
        return None;
    }
    word.parse().ok()
}

// The numbers that words say; None if one of them is no number.
pub fn numbers(heap: Global, words: &[&str]) -> Result<Option<Vec<u32>>, AllocError> {
    words.iter().map(|word| number(word)).collect(heap)
}
