//! The book of a run, written cycle by cycle.
ghost use Rattle.std.specs.Prelude.{◌≡◌, IfOk, List, codes};
ghost use Rattle.cqf_model.specs.declared.frames.Started.{Started as AStarted};
ghost use Rattle.cqf_model.specs.Book.{Contents, contents_of};
ghost use Rattle.cqf_program_scenario.specs.ExactBooks.{AreExactParts};
ghost use Rattle.cqf_instants.specs.Progress.{AreStartsOf};
ghost use Rattle.cqf_output.specs.Writer.{Puts};
ghost use Rattle.cqf_report.specs.Books.{lines_of_starts, text_of_book};

use cqf_instants::{Pass, gather_starts};
use cqf_model::{Book, Dropped, Started};
use cqf_output::{Sink, Writer};
use cqf_report::{put_book_header, put_drops, put_starts};
use cqf_topology::Domain;
use cqf_units::Memory;
use std::alloc::Global;
use std::marker::Model;

/// A book whose starts are found while it is written, so that no list of them is kept.
#[derive(Debug, Drop)]
pub struct ExactBook {
    /// The pass, before its first cycle.
    pass: Pass,
    background: Vec<Started>,
    drops: Vec<Dropped>,
}

impl Model for ExactBook {
    ghost use Rattle.std.specs.Prelude.{◌≡◌};
    ghost use Rattle.cqf_program_scenario.specs.ExactBooks.{ExactParts};

    ghost Value = { ExactParts };

    ghost view = { λ b. record { pass = b.pass; background = b.background.items; drops = b.drops.items } };

    ghost invariant = { λ b. b.pass.reported ≡ 0 };
}

impl ExactBook {
    /// Returns the book with the starts that the pass yields, with these starts of background frames and these drops. The pass is before
    /// its first cycle. It allocates no memory.
    pub fn new(pass: Pass, background: Vec<Started>, drops: Vec<Dropped>) -> ExactBook
        requires { pass.reported ≡ 0 }
        ensures { result ≡ record { pass = pass; background = background.items; drops = drops.items } }
    {
        ExactBook {
            pass,
            background,
            drops,
        }
    }

    /// Puts the text of the book of this domain, as `cqf_report::write_book` gives it: the header, the starts of streams' frames, those of
    /// background frames, and the drops. It allocates no memory. The time grows with the number of lines.
    pub fn put<W: Sink>(self, writer: &mut Writer<'_, W>, domain: &Domain)
        ensures { (book : Contents) → AreExactParts self book →
            Puts W.contents writer.old writer.new (text_of_book domain.now book) }
    {
        let ExactBook {
            pass,
            background,
            drops,
        } = self;
        let background = background.as_slice();
        let drops = drops.as_slice();
        put_book_header(writer);
        put_starts_of_pass(writer, domain, pass);
        put_starts(writer, b"background", domain, background);
        put_drops(writer, domain, drops);
    }

    /// Returns the book with all its starts in a list.
    ///
    /// # Errors
    /// If an allocation fails.
    pub fn gather(self, alloc: Global) -> Result<Book, Memory>
        ensures { IfOk result (λ gathered. (book : Contents) → AreExactParts self book → contents_of gathered ≡ book) }
    {
        let ExactBook {
            pass,
            background,
            drops,
        } = self;
        let starts = gather_starts(alloc, pass)?;
        Ok(Book {
            starts,
            background,
            drops,
        })
    }
}

/// Puts a line for each start that a pass yields, cycle by cycle.
fn put_starts_of_pass<W: Sink>(writer: &mut Writer<'_, W>, domain: &Domain, pass: Pass)
    requires { pass.reported ≡ 0 }
    ensures { (starts : List AStarted) → AreStartsOf pass.basis starts →
        Puts W.contents writer.old writer.new (lines_of_starts (codes "start") domain.now starts) }
{
    let mut pass = pass;
    while pass.next_cycle() {
        put_starts(writer, b"start", domain, pass.starts());
    }
}
