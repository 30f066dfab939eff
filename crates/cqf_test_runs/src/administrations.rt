//! Administrations that make the calls of a script, with the tables of the cycles that they close.
ghost use Rattle.std.specs.Prelude.{◌≡◌, ◌≤◌, IfOk, length};
ghost use Rattle.cqf_laws_coverage.specs.Judged.{StandInOrder};
ghost use Rattle.cqf_model.specs.Limits.{most_offers};
ghost use Rattle.cqf_model.specs.Run.{AreOffers};
ghost use Rattle.cqf_instants_run.specs.HistoryStarts.{SomeHistory};

use cqf_admission::{Admission, Call, Table, read_script};
use cqf_instants_run::{EdgeVerdict, cover};
use cqf_model::{Offer, Row};
use cqf_topology::{Domain, read_streams};
use cqf_units::Memory;
use std::alloc::{AllocError, Global};

/// The seat that closes the cycles that are still open after a script.
const LAST_SEAT: u16 = 8;

/// An admission, and the tables of the cycles that it has closed.
#[derive(Drop)]
pub(crate) struct Administration {
    pub(crate) admission: Admission,
    pub(crate) tables: Vec<Table>,
}

impl Administration {
    /// Returns an administration that has had no call.
    fn new(alloc: Global, domain: &Domain) -> Result<Administration, Memory> {
        Ok(Administration {
            admission: Admission::new(alloc, domain)?,
            tables: Vec::new(alloc),
        })
    }

    /// Returns whether the next cycle is closed.
    fn closes(&mut self, seat: u16) -> bool {
        match self.admission.seal(seat) {
            Ok(table) => self.tables.push(table).is_ok(),
            Err(_) => false,
        }
    }

    /// Returns whether a call is answered as wanted: it isn't refused.
    fn takes(&mut self, seat: u16, call: &Call) -> bool {
        match call {
            Call::Admit(request) => self.admission.admit(seat, request).is_ok(),
            Call::AdmitPaced(request) => self.admission.admit_shared(seat, request).is_ok(),
            Call::Withdraw(name) => self.admission.withdraw(seat, name.as_str()).is_ok(),
            Call::Seal => self.closes(seat),
        }
    }

    /// Returns whether all calls are.
    fn takes_all(&mut self, calls: &[(u16, Call)]) -> bool {
        for call in calls {
            if !self.takes(call.0, &call.1) {
                return false;
            }
        }
        true
    }

    /// Returns whether the cycles that are still open are closed, up to `cycles` cycles in all.
    fn closes_up_to(&mut self, cycles: u32) -> bool {
        let open = self.admission.next_cycle();
        for _cycle in open.0..cycles {
            if !self.closes(LAST_SEAT) {
                return false;
            }
        }
        true
    }
}

/// Returns the administration of a domain that has taken all calls of a script for the streams of a text, and has then closed `cycles`
/// cycles in all, or more.
pub(crate) fn administered(
    alloc: Global,
    domain: &Domain,
    streams: &str,
    script: &str,
    cycles: u32,
) -> Option<Administration> {
    let Ok(requests) = read_streams(alloc, streams.as_bytes()) else {
        return None;
    };
    let Ok(calls) = read_script(alloc, script.as_bytes(), requests.as_slice(), 100_000) else {
        return None;
    };
    let Ok(mut made) = Administration::new(alloc, domain) else {
        return None;
    };
    if made.takes_all(calls.as_slice()) && made.closes_up_to(cycles) {
        Some(made)
    } else {
        None
    }
}

/// Returns the streams that an administration which has closed `cycles` cycles has ever granted, and the verdicts on offers. Returns
/// `Memory` if an allocation fails, or if the administration has closed fewer cycles.
pub(crate) fn judged(
    alloc: Global,
    admission: &Admission,
    cycles: u32,
    offers: &[Offer],
) -> Result<(Vec<Row>, Vec<EdgeVerdict>), Memory>
    requires offers { AreOffers admission.now.domain offers.now }
    requires order { StandInOrder offers.now }
    requires few { length offers.now ≤ most_offers }
    ensures history { IfOk result (λ judged. SomeHistory admission.now.domain cycles judged.0.items offers.now judged.1.items) }
    ensures one_each { IfOk result (λ judged. length judged.1.items ≡ length offers.now) }
{
    if admission.next_cycle().0 < cycles {
        return Err(AllocError);
    }
    let (_entries, rows) = admission.try_copy(alloc)?.into_parts()?;
    let edge_verdicts = cover(alloc, admission.domain(), rows.as_slice(), offers)?;
    Ok((rows, edge_verdicts))
}
