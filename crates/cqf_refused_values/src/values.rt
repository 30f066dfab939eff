//! Trials of calls that take no thread, up to a single bridge. Each call is made between two marks, and repeated if it
//! was refused for lack of memory. The expected result is given with each, worked out by hand.
use crate::{Reported, names_of, reported_by};
use std::alloc::Global;

/// The trials by their names.
macro_rules! trials {
    ($with:ident, $name:ident, $alloc:ident) => {
        $with! {
            $name,
            "write_tx" => crate::gates::write_tx_reported($alloc),
            "write_stream" => crate::gates::write_stream_reported($alloc),
            "compile" => crate::plans::compile_reported($alloc),
            "write_config" => crate::plans::config_reported($alloc),
            "Port::offer" => crate::ports::offer_reported($alloc),
            "Port::offer after others" => crate::ports::offer_after_reported($alloc),
            "Port::advance" => crate::ports::advance_reported($alloc),
            "Domain::read" => crate::domains::read_reported($alloc),
            "Domain::read of a link twice" => crate::domains::twice_reported($alloc),
            "read_streams" => crate::domains::streams_reported($alloc),
            "read_streams of branches" => crate::domains::branches_reported($alloc),
            "read_arrivals" => crate::texts::arrivals_reported($alloc),
            "read_offers" => crate::texts::offers_reported($alloc),
            "read_background" => crate::texts::background_reported($alloc),
            "read_script" => crate::texts::script_reported($alloc),
            "Admission::new" => crate::admissions::new_reported($alloc),
            "Admission::admit" => crate::admissions::admit_reported($alloc),
            "Admission::admit of a stream too many" => crate::admissions::short_reported($alloc),
            "Admission::withdraw" => crate::admissions::withdraw_reported($alloc),
            "Admission::seal" => crate::admissions::seal_reported($alloc),
            "Admission::seal of 33 streams" => crate::many::seal_reported($alloc),
            "Domain::try_copy" => crate::copies::domain_reported($alloc),
            "Request::try_copy" => crate::copies::request_reported($alloc),
            "Table::try_copy" => crate::copies::table_reported($alloc),
            "Admission::try_copy" => crate::copies::admission_reported($alloc),
            "Bridge::new" => crate::bridges::new_reported($alloc),
            "Bridge::send" => crate::bridges::send_reported($alloc),
            "Bridge::receive" => crate::bridges::receive_reported($alloc),
            "Bridge::receive of many frames" => crate::many::receive_reported($alloc),
            "Bridge::receive of many streams" => crate::many::receive_each_reported($alloc),
            "StreamGates::pass" => crate::many::pass_reported($alloc),
            "none: units" => crate::numbers::units_reported($alloc),
            "none: lanes" => crate::numbers::lanes_reported($alloc),
            "none: gates" => crate::none::gates_reported($alloc),
            "none: a new port" => crate::none::port_reported($alloc),
            "none: Port::advance to an instant not after its own" => crate::none::stay_reported($alloc),
            "none: Domain" => crate::none::domain_reported($alloc),
            "none: Table and Row" => crate::none::table_reported($alloc),
            "none: Plan and gate_of" => crate::none::plan_reported($alloc),
            "none: Batch and what a bridge tells" => crate::spent::batch_reported($alloc),
            "none: a bridge that is spent" => crate::spent::spent_reported($alloc),
            "none: what an admission tells" => crate::none::admission_reported($alloc),
            "none: calls of a full history" => crate::none::full_reported($alloc),
            "none: calls of a full history over the line" => crate::none::full_line_reported($alloc),
        }
    };
}

/// The names of the trials.
pub const NAMES: &[&str] = trials!(names_of, name, alloc);

/// Makes the trial with a name. Returns `None` if this crate has no such trial, or what it needs couldn't be prepared.
pub fn reported_of(alloc: Global, name: &str) -> Option<Reported> {
    trials!(reported_by, name, alloc)
}
