//! Parts of the texts, as an explanation shows them.

use std::alloc::{AllocError, Global};
use strsim::levenshtein;

/// How many characters of a text are shown.
const MOST_SHOWN: usize = 60;

/// How many names a line has.
const MOST_NAMED: usize = 8;

/// The greatest distance between a word and the one that was meant.
const FARTHEST: usize = 2;

/// Returns the beginning of a text, followed by `..` if there is more.
pub(crate) fn shortened(alloc: Global, text: &str) -> Result<String, AllocError> {
    let mut shown: String = text.chars().take(MOST_SHOWN).collect(alloc)?;
    if shown.len() < text.len() {
        shown.push_str("..")?;
    }
    Ok(shown)
}

/// Returns the beginning of some bytes, as a text.
pub(crate) fn shown(alloc: Global, bytes: &[u8]) -> Result<String, AllocError> {
    match std::str::from_utf8(bytes) {
        Ok(text) => shortened(alloc, text),
        Err(_) => {
            let lossy = String::from_utf8_lossy(alloc, bytes)?;
            shortened(alloc, lossy.as_str())
        }
    }
}

/// Returns whether the lengths of two words allow that one is meant by the other.
fn may_be_near(word: &str, other: &str) -> bool {
    let is_ascii = word.is_ascii() && other.is_ascii();
    let most = if is_ascii { FARTHEST } else { 4 * FARTHEST };
    word.len().abs_diff(other.len()) <= most && word.len() <= MOST_SHOWN
}

/// Returns the first of the words that are nearest to a word, at most two edits away and fewer than either is long.
pub(crate) fn nearest<'a>(
    alloc: Global,
    word: &str,
    words: &[&'a str],
) -> Result<Option<&'a str>, AllocError> {
    let mut found = None;
    let mut least = word.len().min(FARTHEST + 1);
    for other in words {
        if may_be_near(word, other) {
            let distance = levenshtein(alloc, word, other)?;
            if distance < least.min(other.len()) {
                least = distance;
                found = Some(*other);
            }
        }
    }
    Ok(found)
}

/// Returns names with commas between them, followed by `..` if there are more.
pub(crate) fn some_of(alloc: Global, names: &[&str]) -> Result<String, AllocError> {
    let mut words = String::new(alloc);
    for name in names.iter().take(MOST_NAMED) {
        let name = shortened(alloc, name)?;
        if !words.is_empty() {
            words.push_str(", ")?;
        }
        words.push_str(name.as_str())?;
    }
    if names.len() > MOST_NAMED {
        words.push_str(", ..")?;
    }
    Ok(words)
}

/// Returns the question whether the nearest of the words was meant; an empty text if none is near.
pub(crate) fn question(alloc: Global, word: &str, words: &[&str]) -> Result<String, AllocError> {
    match nearest(alloc, word, words)? {
        Some(meant) => format!(in alloc; "; did you mean {meant}?"),
        None => Ok(String::new(alloc)),
    }
}
