//! The text of a run's fault.
use cqf_worker::ConductFault;
use std::alloc::Global;

/// Faults, and their texts.
const TEXTS: &[(ConductFault, &str)] = &[
    (ConductFault::Memory, "Memory"),
    (ConductFault::DeskDisagrees, "DeskDisagrees"),
    (ConductFault::ChannelLost, "ChannelLost"),
    (ConductFault::Spawn, "Spawn"),
];

/// Returns whether a fault prints so.
fn prints_as(alloc: Global, fault: &ConductFault, expected: &str) -> bool {
    match format!(in alloc; "{fault}") {
        Ok(text) => text.as_str() == expected,
        Err(_) => false,
    }
}

#[test]
fn a_fault_prints_as_its_name(rt: HostRuntime) {
    for (fault, text) in TEXTS {
        assert!(rt; prints_as(rt.alloc(), fault, text), "{text}");
    }
}
