//! The lines of an explanation, gathered.
ghost use Rattle.std.specs.Prelude.{◌≡◌, ◌++◌, ◌≤◌, OnOk, IfOk, length, map, string_bytes};
ghost use Rattle.std.specs.List.{flat_map};
ghost use Rattle.cqf_program_explanations.specs.Explanations.{AreReportedLines, printable, reported_line};

use std::alloc::{AllocError, Global};

/// The most lines that are printed; if there are more, only their number is.
const MOST_REPORTED: usize = 20;

/// The weight of each hexadecimal digit of a character's number.
const HEX_PLACES: [u32; 6] = [1_048_576, 65_536, 4096, 256, 16, 1];

/// The lines so far.
#[derive(Drop)]
pub(crate) struct ReportedLines {
    alloc: Global,
    lines: Vec<String>,
    more: u64,
    ghost few: { length lines.items ≤ 20 },
}

/// Returns a byte as it is printed: a question mark if it isn't a printable one of ASCII.
fn printable(byte: u8) -> u8
    ensures { result ≡ printable byte }
{
    if byte < b' ' || 126 < byte {
        b'?'
    } else {
        byte
    }
}

/// Appends the bytes of a line to a text, as they are printed.
fn put_printable(text: &mut Vec<u8>, line: &[u8]) -> Result<(), AllocError>
    ensures { OnOk result (text.new.items ≡ text.old.items ++ map printable line.now) }
{
    for byte in line {
        text.push(printable(*byte))?;
    }
    Ok(())
}

/// Appends a line to a text, between its start and a line feed.
fn put_line(text: &mut Vec<u8>, start: &str, line: &str) -> Result<(), AllocError>
    ensures { OnOk result (text.new.items ≡ text.old.items ++ reported_line start.now line.now) }
{
    text.extend_from_slice(start.as_bytes())?;
    put_printable(text, line.as_bytes())?;
    text.push(b'\n')?;
    Ok(())
}

/// Returns whether a character is a printable one of ASCII.
fn is_printable(character: char) -> bool {
    let code = u32::from(character);
    (32..=126).contains(&code)
}

/// Returns the last hexadecimal digit of a number.
fn hex_digit(number: u32) -> char {
    let digits = b"0123456789abcdef".as_slice();
    let digit = digits.get((number % 16) as usize).copied();
    char::from(digit.unwrap_or(b'0'))
}

/// Appends a character as `\u{..}`, with its number in hexadecimal digits.
fn put_escaped(text: &mut String, character: char) -> Result<(), AllocError> {
    let code = u32::from(character);
    text.push_str("\\u{")?;
    for place in &HEX_PLACES {
        let above = code.checked_div(*place).unwrap_or(0);
        if above > 0 || *place == 1 {
            text.push(hex_digit(above))?;
        }
    }
    text.push('}')?;
    Ok(())
}

/// Returns a line with each character escaped that isn't a printable one of ASCII.
fn escaped(alloc: Global, line: &str) -> Result<String, AllocError> {
    let mut text = String::new(alloc);
    for character in line.chars() {
        if is_printable(character) {
            text.push(character)?;
        } else {
            put_escaped(&mut text, character)?;
        }
    }
    Ok(text)
}

/// Returns lines as a text, each with its start.
fn text_of(alloc: Global, start: &str, lines: &[String]) -> Result<Vec<u8>, AllocError>
    ensures { IfOk result (λ text. text.items ≡ flat_map (reported_line start.now) (map string_bytes lines.now)) }
{
    let mut text = Vec::new(alloc);
    for line in lines {
        put_line(&mut text, start, line.as_str())?;
    }
    Ok(text)
}

impl ReportedLines {
    /// Returns no lines.
    pub(crate) fn new(alloc: Global) -> ReportedLines {
        ReportedLines {
            alloc,
            lines: Vec::new(alloc),
            more: 0,
        }
    }

    /// Returns whether there is no line.
    pub(crate) fn is_empty(&self) -> bool {
        self.lines.is_empty()
    }

    /// Returns whether one more line is only counted, in which case it is counted, and needs no words.
    pub(crate) fn is_counted(&mut self) -> bool {
        if self.lines.len() < MOST_REPORTED {
            return false;
        }
        self.more = self.more.saturating_add(1);
        true
    }

    /// Adds a line.
    pub(crate) fn report(&mut self, line: String) -> Result<(), AllocError> {
        if self.lines.len() < MOST_REPORTED {
            let line = escaped(self.alloc, line.as_str())?;
            self.lines.push(line)?;
        } else {
            self.more = self.more.saturating_add(1);
        }
        Ok(())
    }

    /// Returns all lines as a text, each with its start, followed by how many more there are.
    pub(crate) fn text(&self, start: &str) -> Result<Vec<u8>, AllocError>
        ensures { IfOk result (λ text. AreReportedLines 21 start.now text.items) }
    {
        let mut text = text_of(self.alloc, start, self.lines.as_slice())?;
        if self.more == 0 {
            return Ok(text);
        }
        let more = self.more;
        let line = format!(in self.alloc; "and {more} more")?;
        put_line(&mut text, start, line.as_str())?;
        Ok(text)
    }
}
