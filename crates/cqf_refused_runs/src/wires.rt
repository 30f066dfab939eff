//! Agendas of bridges, and workers with the pipes between them.
ghost use Rattle.std.specs.Prelude.{◌≡◌, IfSome, map};
ghost use Rattle.cqf_worker.specs.Wires.{AreWired, Wiring, pipe_of_tables, tables_pipe};

use cqf_agenda::Agenda;
use cqf_model::Offer;
use cqf_refused_values::{Reported, domain_of, mark, once, trial, twice};
use cqf_test_fixtures::{are_offers, line, offers_of};
use cqf_topology::Domain;
use cqf_trace::BridgeTrace;
use cqf_units::{Cycle, Memory};
use cqf_worker::{ClosingFault, Laid, close_pipes, lay};
use std::alloc::Global;

/// Whether an agenda of the first bridge has its one offer of cycle 1, the second of all offers.
fn is_agenda(made: &Result<Agenda, Memory>) -> bool {
    match made {
        Ok(agenda) => match agenda.offers(Cycle(1)) {
            [offered] => {
                offered.frame == 2
                    && agenda.offers(Cycle(0)).is_empty()
                    && agenda.background(Cycle(1)).is_empty()
            }
            _ => false,
        },
        Err(_) => false,
    }
}

/// Tries to make the first bridge's agenda.
fn agenda_made(alloc: Global, domain: &Domain, offers: &[Offer]) -> Option<Reported> {
    if offers.len() > 1_000_000 {
        return None;
    }
    Some(trial!(
        alloc,
        Agenda::new(alloc, domain, offers, &[], 0),
        Err(_),
        offers.len() == 2,
        |answer| is_agenda(&answer)
    ))
}

pub(crate) fn agenda_reported(alloc: Global) -> Option<Reported> {
    let offers = offers_of(alloc, &[(0, 1, "x", 64), (125_000, 0, "x", 64)]).ok()?;
    let domain = domain_of(alloc, line())?;
    agenda_made(alloc, &domain, offers.as_slice())
}

/// Whether three workers were made.
fn is_laid(laid: &Result<Laid, Memory>) -> bool {
    match laid {
        Ok(made) => made.workers.len() == 3 && made.tables.len() == 3,
        Err(_) => false,
    }
}

/// Tries to make workers, and repeats that if it fails.
fn laid(alloc: Global, domain: &Domain, offers: &[Offer]) -> Option<Reported> {
    if offers.len() > 1_000_000 || !are_offers(domain, offers) {
        return None;
    }
    Some(trial!(
        alloc,
        lay(alloc, domain, offers, 5),
        Err(_),
        true,
        |answer| is_laid(&answer)
    ))
}

pub(crate) fn lay_reported(alloc: Global) -> Option<Reported> {
    let offers = offers_of(alloc, &[(0, 0, "x", 64)]).ok()?;
    let domain = domain_of(alloc, line())?;
    laid(alloc, &domain, offers.as_slice())
}

/// Returns workers without offers.
fn workers_of(alloc: Global, domain: &Domain) -> Option<Laid>
    ensures wired { IfSome result (λ laid. (wiring : Wiring) × AreWired wiring laid.workers.items) }
    ensures tables { IfSome result (λ laid. map pipe_of_tables laid.tables.items ≡ map tables_pipe laid.workers.items) }
{
    match lay(alloc, domain, &[], 5) {
        Ok(laid) => Some(laid),
        Err(_) => None,
    }
}

/// Whether three bridge traces were returned.
fn is_shut(closed: &Result<Vec<BridgeTrace>, ClosingFault>) -> bool {
    match closed {
        Ok(bridge_traces) => bridge_traces.len() == 3
            && bridge_traces
                .iter()
                .all(|bridge_trace| bridge_trace.drops.is_empty()),
        Err(_) => false,
    }
}

/// Tries to close the pipes of workers; if that fails, closes those of their twins.
fn shut(alloc: Global, laid: Laid, twin: Laid) -> Reported
    requires wired { (wiring : Wiring) × AreWired wiring laid.workers.items }
    requires tables { map pipe_of_tables laid.tables.items ≡ map tables_pipe laid.workers.items }
    requires wired_again { (wiring : Wiring) × AreWired wiring twin.workers.items }
    requires tables_again { map pipe_of_tables twin.tables.items ≡ map tables_pipe twin.workers.items }
{
    let Laid { workers, tables } = laid;
    let Laid {
        workers: other_workers,
        tables: other_tables,
    } = twin;
    mark(alloc);
    let first = close_pipes(alloc, tables, workers);
    mark(alloc);
    if first.is_ok() {
        drop(other_workers);
        drop(other_tables);
        return once(is_shut(&first));
    }
    drop(first);
    twice(
        true,
        is_shut(&close_pipes(alloc, other_tables, other_workers)),
    )
}

/// Tries the same for a domain.
fn shut_of(alloc: Global, domain: &Domain) -> Option<Reported> {
    let laid = workers_of(alloc, domain)?;
    let twin = workers_of(alloc, domain)?;
    Some(shut(alloc, laid, twin))
}

pub(crate) fn shut_reported(alloc: Global) -> Option<Reported> {
    let domain = domain_of(alloc, line())?;
    shut_of(alloc, &domain)
}
