//! The book of a run, made from its parts.
ghost use Rattle.std.specs.Prelude.{◌≡◌, []};
ghost use Rattle.cqf_model.specs.Book.{contents_of};
ghost use Rattle.cqf_instants_run.specs.Parts.{AreBookOfHistory, AreQuietBookOfHistory};

use cqf_model::{Book, Dropped, Started};
use std::alloc::Global;

/// Returns the book with these starts of streams' frames, these starts of background frames, and these drops. If they are those of each
/// legal run of a history, it is the one book of the history, and all guarantees for a run's book hold for it.
pub fn book_of_parts(starts: Vec<Started>, background: Vec<Started>, drops: Vec<Dropped>) -> Book
    ensures parts { contents_of result ≡ record { starts = starts.items; background = background.items; drops = drops.items } }
    ensures book { AreBookOfHistory starts.items background.items drops.items (contents_of result) }
{
    cqf_laws_history::tables_are_orderly();
    cqf_laws_coverage::book_of_history_is_there();
    Book {
        starts,
        background,
        drops,
    }
}

/// Returns the book of a run without background frames, with these starts of streams' frames and these drops. If they are those of each
/// legal run of a history, it is the one book of the history, and all guarantees for a run's book hold for it.
pub fn book_by_instants(alloc: Global, starts: Vec<Started>, drops: Vec<Dropped>) -> Book
    ensures parts { contents_of result ≡ record { starts = starts.items; background = []; drops = drops.items } }
    ensures book { AreQuietBookOfHistory starts.items drops.items (contents_of result) }
{
    book_of_parts(starts, Vec::new(alloc), drops)
}
