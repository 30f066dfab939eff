//! Why a page isn't taken, and why a cycle book doesn't close.
ghost use Rattle.std.specs.Prelude.{◌≡◌, Some};
ghost use Rattle.cqf_book.specs.Faults.{book_close_text, page_fault_text};

use cqf_units::Memory;
use std::fmt;
use thiserror::Error;

/// Why a page isn't taken: the first of these that applies. It prints as its name.
#[derive(Clone, Copy, Debug, PartialEq, Eq, Drop, Error)]
pub enum PageFault {
    /// The page's bridge doesn't exist, or isn't that of the share through which the page is posted.
    StrangeBridge,
    /// The page's cycle doesn't exist.
    StrangeCycle,
    /// The bridge has posted its page of that cycle.
    DoublePage,
    /// The bridge hasn't posted its page of the cycle before.
    CycleSkipped,
    /// An allocation failed.
    Memory,
}

impl fmt::Display for PageFault {
    ghost output = { λ fault. Some (page_fault_text fault) };

    fn fmt<W: fmt::Write>(&self, f: &mut fmt::Formatter<W>) -> fmt::Result {
        match self {
            PageFault::StrangeBridge => f.write_str("StrangeBridge"),
            PageFault::StrangeCycle => f.write_str("StrangeCycle"),
            PageFault::DoublePage => f.write_str("DoublePage"),
            PageFault::CycleSkipped => f.write_str("CycleSkipped"),
            PageFault::Memory => f.write_str("Memory"),
        }
    }
}

/// Why a cycle book doesn't close: the first of these that applies. It prints as its name, and the bridge's number if
/// it has one.
#[derive(Clone, Copy, Debug, PartialEq, Eq, Drop, Error)]
pub enum BookClose {
    /// The shares aren't one for each bridge of the book.
    ShareMissing,
    /// The pages in this bridge's share aren't those that the book took of the bridge. It is the first such bridge.
    SharesDisagree(u16),
    /// An allocation failed.
    Memory,
}

impl fmt::Display for BookClose {
    ghost output = { λ fault. Some (book_close_text fault) };

    fn fmt<W: fmt::Write>(&self, f: &mut fmt::Formatter<W>) -> fmt::Result {
        match self {
            BookClose::ShareMissing => f.write_str("ShareMissing"),
            BookClose::SharesDisagree(bridge) => write!(f, "SharesDisagree {bridge}"),
            BookClose::Memory => f.write_str("Memory"),
        }
    }
}

/// Converts a failed allocation into a fault.
impl From<Memory> for BookClose {
    ghost use Rattle.cqf_book.specs.declared.faults.BookClose.TheVariants as variant;

    ghost from_gives = { λ _ fault. fault ≡ variant.Memory };

    fn from(_refused: Memory) -> BookClose {
        BookClose::Memory
    }
}
