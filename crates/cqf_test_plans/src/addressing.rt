//! Addresses of streams and interfaces of links read, or refused.
use cqf_addressing::{
    AddressingFault, gate_index, near_interface, put_mac, read_link_interfaces,
    read_stream_addresses,
};
use cqf_model::Limits;
use cqf_output::{Buffer, CheckedSink, Writer, written_text};
use std::alloc::Global;

/// Three streams, the second without any key of addressing.
const STREAMS: &str = "[[streams]]
mac = \"01:00:5E:7f:00:0A\"
vlan = 4094
x-gate = 1024

[[streams]]
name = \"plain\"

[[streams]]
x-gate = 1
";

/// Two links.
const LINKS: &str = "[[links]]
from = \"a\"
interface = \"swp1.10\"
far-interface = \"0123456789abcde\"

[[links]]
interface = \"Eth-0_1@x\"
";

/// Returns whether a fault prints as this text.
fn prints(alloc: Global, fault: AddressingFault, wanted: &str) -> bool {
    match format!(in alloc; "{fault}") {
        Ok(text) => text.as_str() == wanted,
        Err(_) => false,
    }
}

/// Returns whether the streams, with a part of their text replaced, get this answer within the `large` limits, or within those of
/// `profile`.
fn answers(alloc: Global, is_large: bool, old: &str, new: &str, wanted: &str) -> bool {
    let Ok(changed) = STREAMS.replacen(alloc, old, new, 1) else {
        return false;
    };
    match read_stream_addresses(alloc, Limits::where_large(is_large), changed.as_bytes()) {
        Ok(addresses) => wanted == "read" && addresses.len() == 3,
        Err(fault) => prints(alloc, fault, wanted),
    }
}

/// Returns whether the links get this answer, likewise.
fn answers_of_links(alloc: Global, old: &str, new: &str, wanted: &str) -> bool {
    let Ok(changed) = LINKS.replacen(alloc, old, new, 1) else {
        return false;
    };
    match read_link_interfaces(alloc, changed.as_bytes()) {
        Ok(links) => wanted == "read" && links.len() == 2,
        Err(fault) => prints(alloc, fault, wanted),
    }
}

/// A part of the text of streams, its replacement, and the answer.
const CHANGES: &[(&str, &str, &str)] = &[
    ("", "", "read"),
    ("01:00:5E:7f:00:0A", "01:80:C2:00:00:10", "read"),
    ("01:00:5E:7f:00:0A", "01:80:C2:00:00:0f", "BadValue mac"),
    ("01:00:5E:7f:00:0A", "01:80:c2:00:00:00", "BadValue mac"),
    ("01:00:5E:7f:00:0A", "00:00:00:00:00:00", "BadValue mac"),
    ("01:00:5E:7f:00:0A", "01:00:5E:7f:00:0G", "BadValue mac"),
    ("01:00:5E:7f:00:0A", "01:00:5E:7f:00:A", "BadValue mac"),
    ("01:00:5E:7f:00:0A", "01-00:5E:7f:00:0A", "BadValue mac"),
    ("vlan = 4094", "vlan = 0", "BadValue vlan"),
    ("vlan = 4094", "vlan = 4095", "BadValue vlan"),
    ("vlan = 4094", "vlan = \"1\"", "BadValue vlan"),
    ("x-gate = 1024", "x-gate = 0", "BadValue x-gate"),
    ("x-gate = 1024", "x-gate = 1025", "BadValue x-gate"),
    ("x-gate = 1024", "x-gate = 2", "GateTwice 2 2"),
    ("x-gate = 1024", "x-gate = 1", "GateTwice 3 1"),
    ("x-gate = 1\n", "", "read"),
    ("name = \"plain\"", "x-gate = 3", "read"),
    ("x-gate = 1\n", "vlan = -1\n", "BadValue vlan"),
];

/// The same for the text of links.
const CHANGES_OF_LINKS: &[(&str, &str, &str)] = &[
    ("", "", "read"),
    ("swp1.10", "", "BadValue interface"),
    ("swp1.10", "-swp", "BadValue interface"),
    ("swp1.10", "eth0:1", "BadValue interface"),
    ("swp1.10", "swp/1", "BadValue interface"),
    ("\"swp1.10\"", "7", "BadValue interface"),
    ("abcde", "abcdef", "BadValue far-interface"),
    ("Eth-0_1@x", ".", "BadValue interface"),
];

#[test]
fn changed_streams_are_refused_by_their_first_fault(rt: HostRuntime) {
    for (old, new, wanted) in CHANGES {
        assert!(rt;
            answers(rt.alloc(), false, old, new, wanted),
            "{old} to {new}"
        );
    }
}

#[test]
fn large_plans_have_more_indexes(rt: HostRuntime) {
    assert!(rt; answers(rt.alloc(), true, "x-gate = 1024", "x-gate = 16384", "read"));
    assert!(rt;
        answers(
            rt.alloc(),
            true,
            "x-gate = 1024",
            "x-gate = 16385",
            "BadValue x-gate"
        )
    );
}

#[test]
fn changed_links_are_refused_by_their_first_fault(rt: HostRuntime) {
    for (old, new, wanted) in CHANGES_OF_LINKS {
        assert!(rt;
            answers_of_links(rt.alloc(), old, new, wanted),
            "{old} to {new}"
        );
    }
}

#[test]
fn streams_have_these_indexes(rt: HostRuntime) {
    let Ok(addresses) = read_stream_addresses(rt.alloc(), Limits::of_profile(), STREAMS.as_bytes())
    else {
        panic!(rt; "refused");
    };
    assert!(rt; gate_index(addresses.as_slice(), 0) == 1024);
    assert!(rt; gate_index(addresses.as_slice(), 1) == 2);
    assert!(rt; gate_index(addresses.as_slice(), 2) == 1);
}

#[test]
fn a_link_has_this_interface(rt: HostRuntime) {
    let Ok(links) = read_link_interfaces(rt.alloc(), LINKS.as_bytes()) else {
        panic!(rt; "refused");
    };
    let Some(name) = near_interface(links.as_slice(), 1) else {
        panic!(rt; "no name");
    };
    assert!(rt; name.as_bytes() == b"Eth-0_1@x".as_slice());
}

/// Returns the text of the first stream's address.
fn mac_text(alloc: Global) -> Option<Vec<u8>> {
    let Ok(addresses) = read_stream_addresses(alloc, Limits::of_profile(), STREAMS.as_bytes())
    else {
        return None;
    };
    let mac = addresses.as_slice().first()?.mac.as_ref()?;
    let Ok(buffer) = Buffer::new(alloc) else {
        return None;
    };
    let mut reported = CheckedSink::new(Vec::new(alloc));
    let mut writer = Writer::new(&mut reported, buffer);
    put_mac(&mut writer, mac);
    let _reported = writer.close();
    written_text(reported).ok()
}

#[test]
fn addresses_are_put_in_lower_case(rt: HostRuntime) {
    let Some(text) = mac_text(rt.alloc()) else {
        panic!(rt; "refused");
    };
    assert!(rt; text.as_slice() == b"01:00:5e:7f:00:0a".as_slice());
}
