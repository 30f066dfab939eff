//! Names, reservations and times.
use cqf_units::{
    Cycle, Name, Nanos, Octets, Rate, budget, cost, counted, cycle_of, end_of, idle_from,
    octet_ticks, wire,
};
use std::alloc::Global;

/// Names: 1 to 32 bytes of the set.
const NAMES: &[&str] = &[
    "a",
    "x-1_9z",
    "bridge-1_a",
    "abcdefghijklmnopqrstuvwxyz01234-",
];

/// Bytes that aren't names.
const NO_NAMES: &[&[u8]] = &[
    b"",
    b"abcdefghijklmnopqrstuvwxyz01234-_",
    b"A",
    b"X!",
    b"\xff",
];

/// Returns whether a name prints as its text, also for debugging.
fn prints_as(alloc: Global, name: &Name, text: &str) -> bool {
    match format!(in alloc; "{name} {name:?}") {
        Ok(printed) => match format!(in alloc; "{text} {text}") {
            Ok(wanted) => printed == wanted,
            Err(_) => false,
        },
        Err(_) => false,
    }
}

/// Returns whether a name and its copies have this text.
fn is_name(alloc: Global, name: &Name, text: &str) -> bool {
    name.as_bytes() == text.as_bytes()
        && name.as_str() == text
        && name.copied() == *name
        && matches!(name.clone(), Ok(copy) if copy == *name)
        && prints_as(alloc, name, text)
}

/// Returns whether the text is a name.
fn is_taken(alloc: Global, text: &str) -> bool {
    match Name::new(text.as_bytes()) {
        Some(name) => is_name(alloc, &name, text),
        None => false,
    }
}

#[test]
fn a_name_has_1_to_32_bytes_of_the_set(rt: HostRuntime) {
    for text in NAMES {
        assert!(rt; is_taken(rt.alloc(), text));
    }
    for bytes in NO_NAMES {
        assert!(rt; Name::new(bytes).is_none());
    }
}

/// Reserved octets, and their cost: 20 more for each frame of 64.
const COSTS: &[(u32, u32)] = &[(64, 84), (1500, 1960), (11_440, 15_000), (60_000, 78_740)];

/// Octets of each frame that gates don't count, reserved octets, and their cost. If 22 octets aren't counted, a frame of 64 has 42 of the
/// reserved ones, and costs 42 more: 1,500 octets are those of 35 such frames, and 60,000 those of 1,428. If 18 aren't, it has 46 and costs
/// 38 more: 1,500 octets are those of 32.
const COSTS_OF_UNCOUNTED: &[(u32, u32, u32)] = &[
    (22, 41, 41),
    (22, 42, 84),
    (22, 83, 125),
    (22, 84, 168),
    (22, 1500, 2970),
    (22, 60_000, 119_976),
    (18, 45, 45),
    (18, 46, 84),
    (18, 1500, 2716),
    (1, 63, 84),
    (0, 64, 84),
];

/// Octets of each frame that gates don't count, a frame's octets, and how many of them gates count.
const COUNTED: &[(u32, u32, u32)] = &[(22, 64, 42), (22, 1522, 1500), (18, 64, 46), (0, 64, 64)];

/// Rates, the ticks of 40 ps of an octet, and the budget of a cycle of 125,000 ns with a guard band of 5,000 ns.
const RATES: &[(Rate, u64, u32)] = &[
    (Rate::Mb10, 20_000, 150),
    (Rate::Mb100, 2000, 1500),
    (Rate::Mb1000, 200, 15_000),
    (Rate::Mb2500, 80, 37_388),
    (Rate::Mb5000, 40, 74_556),
    (Rate::Mb10000, 20, 148_235),
    (Rate::Mb25000, 8, 362_068),
    (Rate::Mb40000, 5, 572_727),
    (Rate::Mb100000, 2, 1_312_500),
];

/// Instants, and their cycles of 125,000 ns.
const CYCLES: &[(u64, u32)] = &[(0, 0), (124_999, 0), (125_000, 1)];

#[test]
fn reservations_cost_their_octets_and_the_gaps(rt: HostRuntime) {
    for (reserved, octets) in COSTS {
        assert!(rt; cost(Octets(0), Octets(*reserved)) == Octets(*octets));
    }
}

#[test]
fn octets_that_gates_leave_out_cost_too(rt: HostRuntime) {
    for (overhead, reserved, octets) in COSTS_OF_UNCOUNTED {
        assert!(rt; cost(Octets(*overhead), Octets(*reserved)) == Octets(*octets));
    }
    for (overhead, frame, octets) in COUNTED {
        assert!(rt; counted(Octets(*overhead), Octets(*frame)) == Octets(*octets));
    }
}

#[test]
fn octets_take_their_time_and_the_budget_is_the_cycle_without_the_guard(rt: HostRuntime) {
    for (rate, ticks, octets) in RATES {
        assert!(rt; octet_ticks(*rate) == *ticks);
        assert!(rt; budget(Nanos(125_000), Nanos(5000), *rate) == Octets(*octets));
    }
}

#[test]
fn a_cycle_begins_at_its_first_instant(rt: HostRuntime) {
    for (t, cycle) in CYCLES {
        assert!(rt; cycle_of(Nanos(*t), Nanos(125_000)) == Cycle(*cycle));
    }
}

#[test]
fn frames_end_and_the_port_idles_at_the_worked_instants(rt: HostRuntime) {
    assert!(rt; wire(Octets(64)) == Octets(84));
    assert!(rt; end_of(Nanos(10), Octets(64), Rate::Mb1000) == Nanos(586));
    assert!(rt; end_of(Nanos(10), Octets(64), Rate::Mb10000) == Nanos(68));
    assert!(rt; idle_from(Nanos(10), Octets(64), Rate::Mb100000) == Nanos(17));
    assert!(rt; idle_from(Nanos(10), Octets(64), Rate::Mb1000) == Nanos(682));
    assert!(rt; end_of(Nanos(0), Octets(1522), Rate::Mb1000) == Nanos(12_240));
}
