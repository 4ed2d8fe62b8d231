use crate::fault::RowFault;
use std::alloc::Global;

/// The first word of a line, and what follows it.
pub fn key_of(line: &str) -> (&str, &str) {
    match line.split_once(' ') {
        Some((key, rest)) => (key, rest.trim()),
        None => (line.trim(), ""),
    }
}

/// The words of a text. Words are parted by spaces; a text in double quotes is one word, also where it
/// is empty.
pub fn words_of(alloc: Global, text: &str) -> Result<Vec<String>, RowFault> {
    let mut words = Vec::new(alloc);
    let mut quoted = false;
    for part in text.split('"') {
        if quoted {
            words.push(String::from_str(alloc, part)?)?;
        } else {
            push_plain(alloc, &mut words, part)?;
        }
        quoted = !quoted;
    }
    if quoted {
        Ok(words)
    } else {
        Err(RowFault::Quote)
    }
}

/// Puts in the words of a text without quotes.
fn push_plain(alloc: Global, words: &mut Vec<String>, text: &str) -> Result<(), RowFault> {
    for word in text.split_whitespace() {
        words.push(String::from_str(alloc, word)?)?;
    }
    Ok(())
}
