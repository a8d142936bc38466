//! Arguments of any bytes as text.

use std::alloc::{AllocError, Global};

/// What begins the text of an argument that is not UTF-8: no argument of a system has a NUL byte.
const NO_TEXT: char = '\0';

/// Returns an argument as text. One that is not UTF-8 is its number after a byte that no argument has.
fn text_of(alloc: Global, word: &[u8], number: usize) -> Result<String, AllocError> {
    match str::from_utf8(word) {
        Ok(text) => String::from_str(alloc, text),
        Err(_) => format!(in alloc; "{NO_TEXT}{number}"),
    }
}

/// Returns the arguments as text.
pub fn texts(alloc: Global, words: &[Vec<u8>]) -> Result<Vec<String>, AllocError> {
    let mut texts = Vec::new(alloc);
    for number in 0..words.len() {
        texts.push(text_of(alloc, words[number].as_slice(), number)?)?;
    }
    Ok(texts)
}

/// Returns whether this is the text of an argument that is not UTF-8.
pub fn is_no_text(text: &str) -> bool {
    text.starts_with(NO_TEXT)
}

/// Returns the bytes of the argument whose text this is.
pub fn bytes_of(alloc: Global, words: &[Vec<u8>], text: &str) -> Result<Vec<u8>, AllocError> {
    if let Some(number) = text.strip_prefix(NO_TEXT)
        && let Ok(number) = number.parse::<usize>()
        && let Some(word) = words.get(number)
    {
        return word.as_slice().to_vec(alloc);
    }
    text.as_bytes().to_vec(alloc)
}
