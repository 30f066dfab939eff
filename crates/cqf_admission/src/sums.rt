//! Sums by link: a stream's number is added to the sum of each of its links.
ghost use Rattle.std.specs.Prelude.{◌≢◌, ◌<◌, All, AllPairs, length};
ghost use Rattle.cqf_admission.specs.Sums.{AreMoreOn, HaveRoomOn};
ghost use Rattle.cqf_model.specs.Table.{links_in};

use cqf_model::Hop;

/// Adds a number to the sum of the link of each hop. No two hops use the same link, each link has a sum, and each sum
/// stays below 2^64.
pub fn add_on(sums: &mut Vec<u64>, tree: &[Hop], number: u32)
    requires inside { All (λ link. link < length sums.old.items) (links_in tree.now) }
    requires apart { AllPairs (λ a b. a ≢ b) (links_in tree.now) }
    requires room { HaveRoomOn sums.old.items (links_in tree.now) number }
    ensures { AreMoreOn sums.old.items (links_in tree.now) number sums.new.items }
{
    for hop in tree {
        let index = usize::from(hop.link);
        sums[index] += u64::from(number);
    }
}
