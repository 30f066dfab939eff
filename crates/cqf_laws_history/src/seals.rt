//! Laws that let an administration answer each call by a few small figures instead of its rows.
//!
//! - [`seal_empties_a_slot`]: which streams a Seal lets go, and that one slot of a ring of 128 slots has exactly these.

ghost use Rattle.cqf_laws_history.specs.LedgerLaws.{EndsAreSoon, RingFindsThoseThatEnd, SealLetsGoThoseThatEnd};

/// Proves that a Seal lets go exactly those held streams that end in the next cycle. The end of a withdrawn stream is at most 64
/// cycles ahead, so no other end falls into the same one of 128 slots.
pub fn seal_empties_a_slot()
    ensures lets_go { SealLetsGoThoseThatEnd }
    ensures soon { EndsAreSoon }
    ensures slot { RingFindsThoseThatEnd }
{}
