//! What a book says.
ghost use Rattle.cqf_laws_shift.specs.Books.{BackgroundChangesOneList, BookSaysTheShift};

use crate::{background_changes_no_start, run_beside_is_run_alone};

/// Proves that the one-thread book says the shift: for every accepted domain, the tables of a history and any offers, beside any
/// background frames.
///
/// The starts of the book are exactly the shift: no frame occurs twice on a link, and each has the octets of its offer. The drops
/// are exactly the offers that aren't covered, each once and with the first reason that applies. In the network whose starts,
/// background frames and drops these are, nothing is lost inside, and loads, instants and latencies are as promised.
pub fn book_says_the_shift()
    ensures { BookSaysTheShift }
{
    cqf_laws_cycle::port_is_one_cycle_late();
    cqf_laws_cycle::streams_are_sent_as_alone();
    cqf_laws_cycle::gate_gives_class();
    cqf_laws_cycle::gate_counts_cycles();
    run_beside_is_run_alone();
}

/// Proves that background frames change only the background list of the one-thread book: the books of two runs that differ only in
/// background frames have the same starts and the same drops.
pub fn background_changes_one_list()
    ensures { BackgroundChangesOneList }
{
    background_changes_no_start();
}
