//! The order of a book's starts.
ghost use Rattle.std.specs.Prelude.{◌≡◌, ℕ, All, OnErr, OnOk, IsPermutation};
ghost use Rattle.cqf_book.specs.BookOrder.{starts_in_book_order, IsStartBelow};

use cqf_model::Started;
use cqf_units::Memory;

/// Sorts starts into the order of a book: by cycle, then link, then instant. Starts that agree in these keep their
/// order. Returns `Memory` if an allocation fails; the starts are then unchanged.
pub fn sort_starts(starts: &mut Vec<Started>) -> Result<(), Memory>
    ensures ok { OnOk result ((cycles links instants : ℕ) → All (IsStartBelow cycles links instants) starts.old.items
        → starts.new.items ≡ starts_in_book_order cycles links instants starts.old.items) }
    ensures moved { IsPermutation starts.old.items starts.new.items }
    ensures err { OnErr result (starts.new.items ≡ starts.old.items) }
{
    starts.sort_by_key(|start| (start.cycle.0, start.link, start.start.0))?;
    Ok(())
}
