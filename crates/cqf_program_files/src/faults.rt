//! Why the files of a plan are refused.
ghost use Rattle.std.specs.Prelude.{Some};
ghost use Rattle.cqf_program_files.specs.Files.{files_fault_text};

use std::fmt;
use thiserror::Error;

/// Why the files of a plan are refused. A fault prints as its name, followed by its value.
#[derive(Debug, Drop, Error)]
pub enum FilesFault {
    /// The first line, from 1, of the first file that has one, with a key of more than 4 parts, or, in a TOML file, of more than 4,096
    /// octets.
    LineTooLong(u64),
    /// The first key that no command knows, as a line shows it, in the first file that has one.
    UnknownKey(String),
    /// One of several files isn't TOML.
    NotToml,
    /// The cycle time is open, and the command takes a plan.
    OpenCycle,
    /// A stream leaves something open, and the command takes a plan. The first such stream's name, as a line shows it.
    Open(String),
    /// The first key that may occur once and occurs in two of several files.
    KeyTwice(&'static str),
    /// The only file after a plan is empty, where offers are expected.
    NoHeader,
}

impl fmt::Display for FilesFault {
    ghost output = { λ fault. Some (files_fault_text fault) };

    fn fmt<W: fmt::Write>(&self, f: &mut fmt::Formatter<W>) -> fmt::Result {
        match self {
            FilesFault::LineTooLong(line) => write!(f, "LineTooLong {line}"),
            FilesFault::UnknownKey(key) => write!(f, "UnknownKey {key}"),
            FilesFault::NotToml => f.write_str("NotToml"),
            FilesFault::OpenCycle => f.write_str("OpenCycle"),
            FilesFault::Open(name) => write!(f, "Open {name}"),
            FilesFault::KeyTwice(key) => write!(f, "KeyTwice {key}"),
            FilesFault::NoHeader => f.write_str("BadHeader"),
        }
    }
}
