//! The starts of a history's run.
ghost use Rattle.std.specs.Prelude.{◌≡◌, ◌≤◌, IfOk, List, length};
ghost use Rattle.cqf_model.specs.declared.frames.Background.{Background};
ghost use Rattle.cqf_model.specs.Book.{starts_of};
ghost use Rattle.cqf_model.specs.History.{Recorded};
ghost use Rattle.cqf_model.specs.HistoryBook.{run_of_history};
ghost use Rattle.cqf_model.specs.Network.{Network};
ghost use Rattle.cqf_model.specs.Run.{AreOffers};
ghost use Rattle.cqf_laws_coverage.specs.Judged.{StandInOrder};
ghost use Rattle.cqf_laws_shift.specs.Run.{IsLegalRun};
ghost use Rattle.cqf_instants_run.specs.HistoryStarts.{IsLaidOutHistoryOf, SomeHistory};
ghost use Rattle.cqf_instants_run.specs.Passes.{IsPassOf};
ghost use Rattle.cqf_model.specs.Limits.{most_offers};

use crate::EdgeVerdict;
use crate::layout::lay_run;
use cqf_instants::{Pass, gather_starts};
use cqf_model::{Offer, Row, Started};
use cqf_topology::Domain;
use cqf_units::Memory;
use std::alloc::Global;

/// Returns a pass over the first `cycles` cycles of a domain, all closed by a legal history. The pass returns the starts of the streams'
/// frames cycle by cycle, each cycle by link, then instant: those of each legal network of the run, with any background frames. The rows
/// are the streams that the history ever granted, there are at most 16,777,215 offers, in order of instant, and the verdicts are those of
/// the offers. The pass has all the memory that it will need. The time grows with the hops of the rows and with the offers.
///
/// # Errors
/// Returns `Memory` if an allocation fails.
pub fn pass_of_history(
    alloc: Global,
    domain: &Domain,
    cycles: u32,
    rows: &[Row],
    offers: &[Offer],
    edge_verdicts: &[EdgeVerdict],
) -> Result<Pass, Memory>
    requires offers { AreOffers domain.now offers.now }
    requires order { StandInOrder offers.now }
    requires few { length offers.now ≤ most_offers }
    requires history { SomeHistory domain.now cycles rows.now offers.now edge_verdicts.now }
    ensures { IfOk result (IsPassOf domain.now cycles rows.now offers.now edge_verdicts.now) }
{
    let basis = lay_run(alloc, domain, cycles, rows, offers, edge_verdicts)?;
    Pass::new(alloc, basis)
}

/// Returns the starts that the pass of [`pass_of_history`] yields in all cycles, for the same arguments: by cycle, then link, then instant.
/// There are at most 16,777,215 offers. The time grows with the hops of the rows, with the offers and with the starts.
///
/// # Errors
/// Returns `Memory` if an allocation fails.
pub fn starts_of_history(
    alloc: Global,
    domain: &Domain,
    cycles: u32,
    rows: &[Row],
    offers: &[Offer],
    edge_verdicts: &[EdgeVerdict],
) -> Result<Vec<Started>, Memory>
    requires offers { AreOffers domain.now offers.now }
    requires order { StandInOrder offers.now }
    requires few { length offers.now ≤ most_offers }
    requires history { SomeHistory domain.now cycles rows.now offers.now edge_verdicts.now }
    ensures { IfOk result (λ starts. (entries : List Recorded) (background : List Background) (net : Network) →
        IsLaidOutHistoryOf domain.now cycles rows.now offers.now edge_verdicts.now entries →
        IsLegalRun (run_of_history domain.now entries offers.now background cycles) net →
        starts.items ≡ starts_of domain.now cycles net.carried) }
{
    let pass = pass_of_history(alloc, domain, cycles, rows, offers, edge_verdicts)?;
    gather_starts(alloc, pass)
}
