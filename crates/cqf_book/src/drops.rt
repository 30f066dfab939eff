//! The order of a book's drops.
ghost use Rattle.std.specs.Prelude.{◌≡◌, ℕ, All, OnErr, OnOk, IsPermutation};
ghost use Rattle.cqf_book.specs.BookOrder.{in_book_order, IsDropBelow};

use cqf_model::Dropped;
use cqf_units::Memory;

/// Sorts drops into the order of a book: by cycle, then bridge, then frame. Drops that agree in these keep their order.
/// Returns `Memory` if an allocation fails; the drops are then unchanged.
pub fn sort_drops(drops: &mut Vec<Dropped>) -> Result<(), Memory>
    ensures ok { OnOk result ((cycles bridges frames : ℕ) → All (IsDropBelow cycles bridges frames) drops.old.items
        → drops.new.items ≡ in_book_order cycles bridges frames drops.old.items) }
    ensures moved { IsPermutation drops.old.items drops.new.items }
    ensures err { OnErr result (drops.new.items ≡ drops.old.items) }
{
    drops.sort_by_key(|drop| (drop.cycle.0, drop.bridge, drop.frame))?;
    Ok(())
}
