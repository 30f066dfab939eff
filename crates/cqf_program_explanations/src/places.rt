//! Places in files, and numbers as they are printed.

use std::fmt;

/// A place: a file, and a line from 1 if that is known.
#[derive(Clone, Copy, Debug)]
pub(crate) struct Place<'a> {
    pub file: &'a str,
    pub line: Option<u64>,
}

/// A number with a comma between each three of its digits.
#[derive(Clone, Copy, Debug)]
pub(crate) struct Grouped(pub u64);

/// Returns the name of a file as it is printed: `-` is standard input.
pub(crate) fn called(file: &str) -> &str {
    if file == "-" { "standard input" } else { file }
}

impl fmt::Display for Place<'_> {
    fn fmt<W: fmt::Write>(&self, f: &mut fmt::Formatter<W>) -> fmt::Result {
        let file = called(self.file);
        match self.line {
            Some(line) => write!(f, "{file}:{line}"),
            None => f.write_str(file),
        }
    }
}

impl fmt::Display for Grouped {
    fn fmt<W: fmt::Write>(&self, f: &mut fmt::Formatter<W>) -> fmt::Result {
        let (above, last) = (self.0 / 1000, self.0 % 1000);
        let (higher, middle) = (above / 1000, above % 1000);
        let (highest, high) = (higher / 1000, higher % 1000);
        if highest > 0 {
            write!(f, "{highest},{high:03},{middle:03},{last:03}")
        } else if high > 0 {
            write!(f, "{high},{middle:03},{last:03}")
        } else if middle > 0 {
            write!(f, "{middle},{last:03}")
        } else {
            write!(f, "{last}")
        }
    }
}
