//! The first pair of ends that occurred earlier.
ghost use Rattle.std.specs.Prelude.{◌≡◌, ◌<◌, ◌++◌, ◌∷◌, [], false, length, map, IfOk, IfSome, OnOk};
ghost use Rattle.std.specs.List.{list_any};
ghost use Rattle.cqf_network.specs.Edges.{first_repeat, pair_of, same_pair};

use cqf_topology::End;
use cqf_units::Memory;
use indexmap::IndexSet;
use std::alloc::Global;

/// Returns whether a pair of ends is held.
fn holds(held: &IndexSet<(End, End)>, pair: (End, End)) -> bool
    ensures { result ≡ list_any (same_pair (pair_of pair)) (map pair_of held.now.keys) }
{
    held.contains(&pair)
}

/// Adds a pair of ends that isn't held yet.
fn hold(held: &mut IndexSet<(End, End)>, pair: (End, End)) -> Result<(), Memory>
    requires { list_any (same_pair (pair_of pair)) (map pair_of held.old.keys) ≡ false }
    ensures { OnOk result (map pair_of held.new.keys ≡ map pair_of held.old.keys ++ pair_of pair ∷ []) }
{
    held.insert(pair)?;
    Ok(())
}

/// Returns the index of the first pair that occurred earlier.
pub(crate) fn find_repeat(alloc: Global, pairs: &[(End, End)]) -> Result<Option<usize>, Memory>
    ensures first { IfOk result (λ index. index ≡ first_repeat [] (map pair_of pairs.now)) }
    ensures within { IfOk result (λ index. IfSome index (λ index. index < length pairs.now)) }
{
    let mut held = IndexSet::new(alloc);
    for (index, pair) in pairs.iter().enumerate() {
        if holds(&held, *pair) {
            return Ok(Some(index));
        }
        hold(&mut held, *pair)?;
    }
    Ok(None)
}
