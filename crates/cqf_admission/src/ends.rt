//! The streams that end in one cycle.
ghost use Rattle.std.specs.Prelude.{◌≡◌, ◌≢◌, ℕ, [], AllPairs, Contains};
ghost use Rattle.cqf_admission.specs.Holdings.{AreLetGo, IsHeldAt};

use crate::holdings::Holdings;

/// Releases each stream whose number is listed, and empties the list.
pub(crate) fn let_go_of(holdings: &mut Holdings, slot: &mut Vec<u32>)
    requires held { (number : ℕ) → Contains slot.old.items number → IsHeldAt holdings.old.rows number }
    requires once { AllPairs (λ (a b : ℕ). a ≢ b) slot.old.items }
    ensures rows { AreLetGo slot.old.items holdings.old.rows holdings.new.rows }
    ensures links { holdings.new.links ≡ holdings.old.links }
    ensures empty { slot.new.items ≡ [] }
{
    while let Some(number) = slot.pop() {
        holdings.let_go(number);
    }
}
