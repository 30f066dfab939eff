//! What a line of standard error shows of a text with any content.
ghost use Rattle.std.specs.Prelude.{◌≡◌, ◌≢◌, ◌⊎◌, [], IfOk, OnOk, false, length, map, string_bytes, true};
ghost use Rattle.std.specs.List.{list_all};
ghost use Rattle.std.specs.Str.{chars};
ghost use Rattle.cqf_program_words.specs.Shown.{EndsShown, Lengthens, ShowsAfter, ShowsLine, ShowsWords, are_printable, is_plain, is_printable};
ghost use Rattle.cqf_program_words.specs.Shown.{is_shown_whole, no_command, no_words};

use cqf_output::{FAULT, Stop, USAGE};
use cqf_units::Memory;
use std::alloc::Global;

/// The most characters of a text that a line shows.
const SHOWN: usize = 200;

/// Returns whether the character is a printable one of ASCII. A terminal may do something else with other characters than print them, or
/// print what looks like another.
fn is_plain(character: char) -> bool
    ensures { result ≡ is_plain character }
{
    let code = u32::from(character);
    0x20 <= code && code <= 0x7e
}

/// Returns whether each character of the text is a printable one of ASCII.
fn is_printable(text: &str) -> bool
    ensures { result ≡ is_printable text.now }
{
    text.chars().all(|character| is_plain(character))
}

/// Returns how many characters the text has.
fn count_of(text: &str) -> usize
    ensures { result ≡ length (chars text.now) }
{
    text.chars().count()
}

/// Returns whether a line shows the whole text unchanged.
fn is_shown_whole(text: &str) -> bool
    ensures { result ≡ is_shown_whole text.now }
{
    is_printable(text) && count_of(text) <= SHOWN
}

/// Appends a character as a line shows it: one that isn't a printable one of ASCII as `\u{..}`, with its number in hexadecimal digits.
fn show(line: &mut String, character: char) -> Result<(), Memory>
    ensures { OnOk result (Lengthens (string_bytes line.old) (string_bytes line.new)) }
{
    if is_plain(character) {
        return line.push(character);
    }
    for escaped in character.escape_unicode() {
        line.push(escaped)?;
    }
    Ok(())
}

/// Appends what a line shows of a text: its first 200 characters, with all but printable ones of ASCII escaped, followed by `..` if there
/// are more.
fn show_front(line: &mut String, text: &str) -> Result<(), Memory>
    ensures { OnOk result (Lengthens (string_bytes line.old) (string_bytes line.new)) }
{
    for character in text.chars().take(SHOWN) {
        show(line, character)?;
    }
    if count_of(text) > SHOWN {
        line.push_str("..")?;
    }
    Ok(())
}

/// Returns the line of a text that isn't a command.
fn line_of_text(alloc: Global, text: &str) -> Result<String, Memory>
    ensures { IfOk result (λ line. ShowsAfter no_command (string_bytes line)) }
{
    let mut line = String::from_str(alloc, "cqf: the first line of the input isn't a command: ")?;
    show_front(&mut line, text)?;
    line.push('\n')?;
    Ok(line)
}

/// Returns the line of a file that can't be read, and why.
fn line_of_file(alloc: Global, name: &str, cause: &str) -> Result<String, Memory> {
    let mut line = String::from_str(alloc, "cqf: ")?;
    show_front(&mut line, name)?;
    line.push_str(": input fault: ")?;
    show_front(&mut line, cause)?;
    line.push('\n')?;
    Ok(line)
}

/// Returns the end if the file of this name can't be read: status 4, and the line `cqf: NAME: input fault: CAUSE`, with what a line shows
/// of the name and of the cause, which is the system's. Returns status 3 without a text if an allocation fails.
pub fn stop_of_file(alloc: Global, name: &str, cause: &str) -> Stop
    ensures status { (result.status ≡ 4) ⊎ (result.status ≡ 3) }
    ensures memory { result.status ≡ 3 → result.text.items ≡ [] }
{
    Stop::with_text(alloc, FAULT, line_of_file(alloc, name, cause))
}

/// Returns the end of a run whose first line has words that are a mistake. `stop` is the end for these words alone, and echoes some of
/// them. The result is `stop` if a line shows the whole text unchanged; else it has a line that shows what can be shown. Ends with another
/// status than 2 are returned unchanged.
pub fn stop_of_line(alloc: Global, text: &str, stop: Stop) -> Stop
    requires { stop.status ≡ 3 → stop.text.items ≡ [] }
    ensures status { (result.status ≡ stop.status) ⊎ (result.status ≡ 3) }
    ensures memory { result.status ≡ 3 → result.text.items ≡ [] }
    ensures other { stop.status ≢ 2 → result ≡ stop }
    ensures whole { is_shown_whole text.now ≡ true → result ≡ stop }
    ensures own { stop.status ≡ 2 → is_shown_whole text.now ≡ false → EndsShown no_command result }
    ensures shows { ShowsLine text.now result }
{
    if stop.status != USAGE {
        return stop;
    }
    if is_shown_whole(text) {
        return stop;
    }
    Stop::with_text(alloc, USAGE, line_of_text(alloc, text))
}

/// Returns whether each character of the words is a printable one of ASCII.
fn are_all_printable(words: &[&str]) -> bool
    ensures { result ≡ list_all (λ word. is_printable word.now) words.now }
{
    words.iter().all(|word| is_printable(word))
}

/// Returns whether a line shows each of the words unchanged, at any length.
fn are_printable(words: &[&str]) -> bool
    ensures { result ≡ are_printable (map (λ word. word.now) words.now) }
{
    are_all_printable(words)
}

/// Returns the line of words that aren't a command.
fn line_of_words(alloc: Global, words: &[&str]) -> Result<String, Memory>
    ensures { IfOk result (λ line. ShowsAfter no_words (string_bytes line)) }
{
    let mut line = String::from_str(alloc, "cqf: the words aren't a command:")?;
    for word in words {
        line.push(' ')?;
        show_front(&mut line, word)?;
    }
    line.push('\n')?;
    Ok(line)
}

/// Returns the end of a run whose words are a mistake. `stop` is the end for these words, and echoes some of them. The result is `stop` if
/// each word has only characters that a line shows unchanged; else it has a line that shows what can be shown. Ends with another status
/// than 2 are returned unchanged.
pub(crate) fn stop_of_words(alloc: Global, words: &[&str], stop: Stop) -> Stop
    requires { stop.status ≡ 3 → stop.text.items ≡ [] }
    ensures status { (result.status ≡ stop.status) ⊎ (result.status ≡ 3) }
    ensures memory { result.status ≡ 3 → result.text.items ≡ [] }
    ensures other { stop.status ≢ 2 → result ≡ stop }
    ensures printable { are_printable (map (λ word. word.now) words.now) ≡ true → result ≡ stop }
    ensures own { stop.status ≡ 2 → are_printable (map (λ word. word.now) words.now) ≡ false → EndsShown no_words result }
    ensures shows { ShowsWords (map (λ word. word.now) words.now) result }
{
    if stop.status != USAGE {
        return stop;
    }
    if are_printable(words) {
        return stop;
    }
    Stop::with_text(alloc, USAGE, line_of_words(alloc, words))
}

/// Returns the end of a run whose first line is too long to have words: status 2, and a line that shows what can be shown of it; status 3
/// if an allocation for it fails.
pub fn stop_of_long_line(alloc: Global, text: &str) -> Stop
    ensures { EndsShown no_command result }
{
    Stop::with_text(alloc, USAGE, line_of_text(alloc, text))
}
