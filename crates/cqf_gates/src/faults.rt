//! Why a gate list is refused.
ghost use Rattle.std.specs.Prelude.{Some};
ghost use Rattle.cqf_gates.specs.Faults.{list_fault_text, text_fault_text};

use std::fmt;
use thiserror::Error;

/// The most entries of a gate list.
pub(crate) const MOST_ENTRIES: usize = 16;

/// Why no gate list can be made of some entries. It prints as its name.
#[derive(Clone, Copy, Debug, PartialEq, Eq, Drop, Error)]
pub enum ListFault {
    /// There is no entry.
    Empty,
    /// There are more than 16 entries.
    TooMany,
    /// An interval is 0.
    ZeroInterval,
    /// An internal priority value is neither 6 nor 7.
    BadIpv,
}

impl fmt::Display for ListFault {
    ghost output = { λ fault. Some (list_fault_text fault) };

    fn fmt<W: fmt::Write>(&self, f: &mut fmt::Formatter<W>) -> fmt::Result {
        match self {
            ListFault::Empty => f.write_str("Empty"),
            ListFault::TooMany => f.write_str("TooMany"),
            ListFault::ZeroInterval => f.write_str("ZeroInterval"),
            ListFault::BadIpv => f.write_str("BadIpv"),
        }
    }
}

/// Why a text isn't a gate list. It prints as its name and the line number, or as the list's fault alone.
#[derive(Clone, Copy, Debug, PartialEq, Eq, Drop, Error)]
pub enum TextFault {
    /// The number of the first line that doesn't denote an entry, counted from 1.
    BadLine(u64),
    /// Each line denotes an entry, but the entries don't form a list.
    List(ListFault),
}

impl fmt::Display for TextFault {
    ghost output = { λ fault. Some (text_fault_text fault) };

    fn fmt<W: fmt::Write>(&self, f: &mut fmt::Formatter<W>) -> fmt::Result {
        match self {
            TextFault::BadLine(line) => write!(f, "BadLine {line}"),
            TextFault::List(fault) => write!(f, "{fault}"),
        }
    }
}
