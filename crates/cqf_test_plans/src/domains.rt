//! Domains of network files, read or refused.
use cqf_model::PROFILE;
use cqf_network::{NetworkDomain, NetworkFault};
use std::alloc::Global;

/// Two bridges, a station that listens and talks, and one that only talks.
const NETWORK: &str = "cycle = [250000, 125000]
guard = 4000
bridges = [\"a\", \"b\"]
stations = [\"s\", \"t\"]
links = [
    { from = \"a\", to = \"b\", rate = 1000, delay = 500, duplex = true },
    { from = \"b\", to = \"s\", rate = 1000, delay = 600, duplex = true },
    { from = \"t\", to = \"a\", rate = 100, delay = 700 },
]
";

/// Returns whether a fault prints as this text.
fn prints(alloc: Global, fault: NetworkFault, wanted: &str) -> bool {
    match format!(in alloc; "{fault}") {
        Ok(text) => text.as_str() == wanted,
        Err(_) => false,
    }
}

/// Returns whether the network file with a part of its text replaced gets this answer.
fn answers(alloc: Global, old: &str, new: &str, wanted: &str) -> bool {
    let Ok(changed) = NETWORK.replacen(alloc, old, new, 1) else {
        return false;
    };
    match NetworkDomain::read(alloc, changed.as_bytes(), PROFILE, None) {
        Ok(_domain) => wanted == "read",
        Err(fault) => prints(alloc, fault, wanted),
    }
}

/// A part of the network file, its replacement, and the answer.
const CHANGES: &[(&str, &str, &str)] = &[
    ("", "", "read"),
    ("cycle = [250000, 125000]", "cycle = 125000", "read"),
    ("[250000, 125000]", "[]", "BadValue cycle"),
    ("125000]", "9999]", "BadValue cycle"),
    ("cycle = [250000, 125000]\n", "", "Missing cycle"),
    ("duplex = true", "duplex = 1", "BadValue duplex"),
    ("to = \"s\"", "to = \"x\"", "UnknownName x"),
    (
        "from = \"t\", to = \"a\"",
        "from = \"t\", to = \"s\"",
        "UnknownName s",
    ),
    (
        "from = \"t\", to = \"a\"",
        "from = \"b\", to = \"a\"",
        "LinkTwice 2",
    ),
    (
        "from = \"t\", to = \"a\"",
        "from = \"s\", to = \"a\"",
        "read",
    ),
    ("guard = 4000", "guard = 250000", "GuardTooLong"),
    ("guard = 4000", "guard = 200000", "read"),
    ("delay = 600", "delay = 4000", "DelayTooLong 1"),
    ("delay = 700", "delay = 4000", "read"),
    ("\"s\", \"t\"", "\"s\", \"s\"", "NameTaken s"),
    ("guard = 4000", "guard = 4000\nsync = 1076", "read"),
    ("guard = 4000", "guard = 4000\nsync = 1077", "SyncTooLong 0"),
    (
        "guard = 4000",
        "guard = 4000\nsync = 3400",
        "DelayTooLong 1",
    ),
    ("guard = 4000", "guard = 4000\nsync = -1", "BadValue sync"),
    ("delay = 500", "delay = [400, 600]", "read"),
    ("delay = 500", "delay = [600, 400]", "BadValue delay"),
    ("delay = 700", "delay = [700, 4000]", "read"),
    ("delay = 500", "delay = 500, guard = 0", "BadValue guard"),
    ("delay = 500", "delay = 500, guard = 501", "read"),
    ("delay = 500", "delay = 500, guard = 500", "DelayTooLong 0"),
    ("delay = 500", "delay = 500, guard = 200000", "read"),
    (
        "delay = 500",
        "delay = 500, guard = 250000",
        "LinkGuardTooLong 0",
    ),
    ("delay = 700", "delay = 700, guard = 250000", "read"),
    ("rate = 1000", "rate = 25000", "read"),
];

#[test]
fn a_changed_network_is_refused_by_its_first_fault(rt: HostRuntime) {
    for (old, new, wanted) in CHANGES {
        assert!(rt; answers(rt.alloc(), old, new, wanted), "{old} to {new}");
    }
}

/// Of a link in both directions, the domain has each that leaves a bridge; the others are talkers' links.
#[test]
fn links_are_numbered_there_before_back(rt: HostRuntime) {
    match NetworkDomain::read(rt.alloc(), NETWORK.as_bytes(), PROFILE, None) {
        Ok(domain) => {
            assert!(rt; domain.candidates() == [250_000, 125_000].as_slice());
            assert!(rt; domain.links().len() == 3);
            assert!(rt; domain.links()[1].from == 1);
            assert!(rt; domain.talkers().len() == 2);
            assert!(rt; domain.talkers()[0].station == 0 && domain.talkers()[0].bridge == 1);
            assert!(rt; domain.talkers()[1].station == 1 && domain.talkers()[1].bridge == 0);
        }
        Err(_) => assert!(rt; false),
    }
}

/// Returns whether the domain of a network file at its first open cycle time has this cycle time and three links.
fn opens_at(alloc: Global, text: &str, cycle: u64) -> bool {
    let Ok(network) = NetworkDomain::read(alloc, text.as_bytes(), PROFILE, None) else {
        return false;
    };
    match network.at(alloc, network.open_cycle()) {
        Ok(plan) => plan.cycle_time().0 == cycle && plan.links() == 3,
        Err(_) => false,
    }
}

/// Returns whether the network file, with its candidates in the opposite order and a part of its text replaced, has a domain with this
/// cycle time.
fn turned_opens_at(alloc: Global, old: &str, new: &str, cycle: u64) -> bool {
    let Ok(turned) = NETWORK.replacen(alloc, "[250000, 125000]", "[125000, 250000]", 1) else {
        return false;
    };
    match turned.replacen(alloc, old, new, 1) {
        Ok(text) => opens_at(alloc, text.as_str(), cycle),
        Err(_) => false,
    }
}

/// A candidate that isn't longer than a guard band isn't open.
#[test]
fn the_plan_has_the_first_open_cycle(rt: HostRuntime) {
    assert!(rt; opens_at(rt.alloc(), NETWORK, 250_000));
    assert!(rt; turned_opens_at(rt.alloc(), "", "", 125_000));
    assert!(rt; turned_opens_at(rt.alloc(), "guard = 4000", "guard = 125000", 250_000));
    assert!(rt;
        turned_opens_at(
            rt.alloc(),
            "delay = 600",
            "delay = 600, guard = 125000",
            250_000
        )
    );
    assert!(rt;
        turned_opens_at(
            rt.alloc(),
            "delay = 600",
            "delay = 600, guard = 124999",
            125_000
        )
    );
}
