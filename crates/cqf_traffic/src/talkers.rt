//! The instants of a talker's blocks.
ghost use Rattle.std.specs.Prelude.{◌≡◌, ◌+◌, max};
ghost use Rattle.cqf_traffic.specs.Offering.{after_word, late_by, on_grid, words_of};

use crate::Traffic;
use cqf_units::Nanos;
use rand_core::utils::NextWord;
use rand_pcg::Pcg32;

/// A talker between two of its blocks: its promise, the words by which the next blocks are late, and the instant of the last block.
#[derive(Drop)]
pub(crate) struct Talker {
    pub(crate) traffic: Traffic,
    words: Option<Pcg32>,
    reached: u128,
}

/// Returns the words of the stream with this number, from 0.
fn words_of(seed: Option<u32>, number: u64) -> Option<Pcg32>
    ensures { result ≡ words_of seed number }
{
    match seed {
        Some(seed) => Some(Pcg32::new(u64::from(seed) << 32, number)),
        None => None,
    }
}

impl Talker {
    /// Returns a talker before its first block.
    pub(crate) fn new(traffic: Traffic, seed: Option<u32>, number: u64) -> Talker
        ensures { result ≡ record { traffic = traffic; words = words_of seed number; reached = 0 } }
    {
        Talker {
            traffic,
            words: words_of(seed, number),
            reached: 0,
        }
    }

    /// Returns how late the next block is, at most the jitter, in nanoseconds. This takes a word.
    fn late(&mut self) -> u64
        ensures late { result ≡ late_by self.old.traffic.jitter self.old.words }
        ensures next { self.new ≡ record self.old { words = after_word self.old.words } }
    {
        let parts = self.traffic.jitter().0 + 1;
        match &mut self.words {
            Some(words) => u64::from(words.next_word()) * parts / 4_294_967_296,
            None => 0,
        }
    }

    /// Returns the instant of the block with this number, which is the talker's next one.
    pub(crate) fn next(&mut self, block: u64) -> u128
        ensures at { result ≡ max self.old.reached (on_grid self.old.traffic block + late_by self.old.traffic.jitter self.old.words) }
        ensures next { self.new ≡ record self.old { words = after_word self.old.words; reached = result } }
    {
        let grid = u128::from(self.traffic.offset().0)
            + u128::from(block) * u128::from(self.traffic.interval().0);
        let at = self.reached.max(grid + u128::from(self.late()));
        self.reached = at;
        at
    }
}
