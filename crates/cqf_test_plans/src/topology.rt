//! Domains and streams read, or refused.
use cqf_admission::Admission;
use cqf_test_fixtures::{Asked, is_request, line, one_link, request, ring};
use cqf_topology::{
    Domain, DomainFault, Link, Node, PacedRequest, Request, StreamsFault, read_paced_streams,
    read_planned_streams, read_streams,
};
use cqf_units::{Nanos, Rate};
use std::alloc::{AllocError, Global};

/// Returns whether a fault of a domain's text prints as this text.
fn domain_prints(alloc: Global, fault: DomainFault, wanted: &str) -> bool {
    match format!(in alloc; "{fault}") {
        Ok(text) => text.as_str() == wanted,
        Err(_) => false,
    }
}

/// Returns whether a domain's text is read, if that is the answer, or refused with a fault that prints as the answer.
fn answers(alloc: Global, text: &[u8], wanted: &str) -> bool {
    match Domain::read(alloc, text) {
        Ok(_domain) => wanted == "read",
        Err(fault) => domain_prints(alloc, fault, wanted),
    }
}

/// Returns whether a text with a part of it replaced gets this answer.
fn changed_answers(alloc: Global, text: &str, old: &str, new: &str, wanted: &str) -> bool {
    match text.replacen(alloc, old, new, 1) {
        Ok(changed) => answers(alloc, changed.as_bytes(), wanted),
        Err(_) => false,
    }
}

/// A part of the line's text, its replacement, and the answer.
const CHANGES: &[(&str, &str, &str)] = &[
    ("", "", "read"),
    ("delay = 500", "delay = 4999", "read"),
    ("delay = 500", "delay = 5000", "DelayTooLong 0"),
    (
        "to = \"s\"\nrate = 1000\ndelay = 500",
        "to = \"s\"\nrate = 1000\ndelay = 5000",
        "DelayTooLong 2",
    ),
    (
        "rate = 1000\ndelay = 500",
        "rate = 10\ndelay = 5000",
        "DelayTooLong 0",
    ),
    ("guard = 5000", "guard = 125000", "GuardTooLong"),
    ("guard = 5000\n", "", "Missing guard"),
    (
        "guard = 5000\nbridges = [\"a\"",
        "bridges = [\"A\"",
        "Missing guard",
    ),
    ("to = \"s\"", "", "Missing to"),
    ("\"a\", \"b\"", "\"A\", \"b\"", "BadValue bridges"),
    ("cycle = 125000", "cycle = 125000.0", "BadValue cycle"),
    ("\"s\"", "\"a\"", "NameTaken a"),
    ("cycle = 125000", "cycle =", "NotToml"),
    ("[\"a\", \"b\", \"c\"]", "[]", "BadValue bridges"),
    ("rate = 1000", "rate = 100", "read"),
    // one more link, after the last
    (
        LAST_LINK,
        "to = \"s\"\nrate = 1000\ndelay = 500\n[[links]]\nfrom = \"b\"\nto = \"s\"\nrate = 1000\ndelay = 500\n",
        "read",
    ),
    (
        LAST_LINK,
        "to = \"s\"\nrate = 1000\ndelay = 500\n[[links]]\nfrom = \"a\"\nto = \"q\"\nrate = 1000\ndelay = 500\n",
        "UnknownName q",
    ),
    (
        LAST_LINK,
        "to = \"s\"\nrate = 1000\ndelay = 500\n[[links]]\nfrom = \"s\"\nto = \"a\"\nrate = 1000\ndelay = 500\n",
        "UnknownName s",
    ),
    (
        LAST_LINK,
        "to = \"s\"\nrate = 1000\ndelay = 500\n[[links]]\nfrom = \"b\"\nto = \"b\"\nrate = 1000\ndelay = 500\n",
        "UnknownName b",
    ),
    (
        LAST_LINK,
        "to = \"s\"\nrate = 1000\ndelay = 500\n[[links]]\nfrom = \"a\"\nto = \"b\"\nrate = 1000\ndelay = 500\n",
        "LinkTwice 3",
    ),
];

/// The end of the line's text.
const LAST_LINK: &str = "to = \"s\"\nrate = 1000\ndelay = 500\n";

#[test]
fn a_changed_line_is_refused_by_its_first_fault(rt: HostRuntime) {
    for (old, new, wanted) in CHANGES {
        assert!(rt;
            changed_answers(rt.alloc(), line(), old, new, wanted),
            "{new}: {wanted}"
        );
    }
}

/// Two bridges in a row, whose clocks may differ and whose links' delays vary.
const LOOSE: &str = "cycle = 125000
guard = 5000
sync = 500
bridges = [\"a\", \"b\"]
stations = [\"s\"]
links = [
    { from = \"a\", to = \"b\", rate = 1000, delay = [400, 600] },
    { from = \"b\", to = \"s\", rate = 1000, delay = [400, 600] },
]
";

/// A part of that text, its replacement, and the answer. A shortest frame takes 576 ns on a link.
const LOOSE_CHANGES: &[(&str, &str, &str)] = &[
    ("", "", "read"),
    ("sync = 500", "sync = 976", "read"),
    ("sync = 500", "sync = 977", "SyncTooLong 0"),
    ("sync = 500", "sync = 1000", "SyncTooLong 0"),
    (
        "[400, 600] },\n    { from = \"b\"",
        "[600, 600] },\n    { from = \"b\"",
        "read",
    ),
    (
        "sync = 500\nbridges = [\"a\", \"b\"]\nstations = [\"s\"]\nlinks = [\n    { from = \"a\", to = \"b\", rate = 1000, delay = [400,",
        "sync = 1000\nbridges = [\"a\", \"b\"]\nstations = [\"s\"]\nlinks = [\n    { from = \"a\", to = \"b\", rate = 1000, delay = [500,",
        "SyncTooLong 1",
    ),
    ("600]", "4499]", "read"),
    ("600]", "4500]", "DelayTooLong 0"),
    ("600]", "4600]", "DelayTooLong 0"),
    ("sync = 500", "sync = 4400", "DelayTooLong 0"),
    ("sync = 500", "sync = 10000000", "DelayTooLong 0"),
    ("sync = 500", "sync = 10000001", "BadValue sync"),
    ("sync = 500", "sync = -1", "BadValue sync"),
    ("sync = 500", "sync = [500]", "BadValue sync"),
    (
        "guard = 5000\nsync = 500",
        "guard = 0\nsync = -1",
        "BadValue guard",
    ),
    ("sync = 500", "gate-overhead = 22", "read"),
    ("sync = 500", "gate-overhead = 0", "read"),
    ("sync = 500", "gate-overhead = 23", "BadValue gate-overhead"),
    ("sync = 500", "gate-overhead = -1", "BadValue gate-overhead"),
    (
        "sync = 500",
        "gate-overhead = \"22\"",
        "BadValue gate-overhead",
    ),
    (
        "sync = 500",
        "gate-overhead = 23\nsync = -1",
        "BadValue sync",
    ),
    (
        "sync = 500\nbridges = [\"a\"",
        "gate-overhead = 23\nbridges = [\"A\"",
        "BadValue gate-overhead",
    ),
    (
        "sync = 500\nbridges = [\"a\"",
        "sync = -1\nbridges = [\"A\"",
        "BadValue sync",
    ),
    ("[400, 600]", "[600, 400]", "BadValue delay"),
    ("[400, 600]", "[600, 600]", "read"),
    ("[400, 600]", "600", "read"),
    ("[400, 600]", "[]", "BadValue delay"),
    ("[400, 600]", "[600]", "BadValue delay"),
    ("[400, 600]", "[400, 500, 600]", "BadValue delay"),
    ("[400, 600]", "[-1, 600]", "BadValue delay"),
    ("[400, 600]", "[400, 10000001]", "BadValue delay"),
    ("[400, 600]", "[400, \"600\"]", "BadValue delay"),
    (
        "rate = 1000, delay = [400, 600]",
        "rate = 999, delay = [600, 400]",
        "BadValue rate",
    ),
    ("[400, 600]", "[600, 400], guard = 0", "BadValue delay"),
    ("[400, 600]", "[400, 600], guard = 0", "BadValue guard"),
    (
        "[400, 600]",
        "[400, 600], guard = 10000001",
        "BadValue guard",
    ),
    (
        "[400, 600]",
        "[400, 600], guard = \"5000\"",
        "BadValue guard",
    ),
    ("[400, 600]", "[400, 600], guard = 1101", "read"),
    ("[400, 600]", "[400, 600], guard = 1100", "DelayTooLong 0"),
    ("[400, 600]", "[400, 6000], guard = 6501", "read"),
    ("[400, 600]", "[400, 600], guard = 124999", "read"),
    (
        "[400, 600]",
        "[400, 600], guard = 125000",
        "LinkGuardTooLong 0",
    ),
    (
        "[400, 600] },\n    { from = \"b\", to = \"s\", rate = 1000, delay = [400, 600]",
        "[400, 6000] },\n    { from = \"b\", to = \"s\", rate = 1000, delay = [400, 600], guard = 125000",
        "LinkGuardTooLong 1",
    ),
    (
        "guard = 5000\nsync = 500\nbridges = [\"a\", \"b\"]\nstations = [\"s\"]\nlinks = [\n    { from = \"a\", to = \"b\", rate = 1000, delay = [400, 600]",
        "guard = 125000\nsync = 500\nbridges = [\"a\", \"b\"]\nstations = [\"s\"]\nlinks = [\n    { from = \"a\", to = \"b\", rate = 1000, delay = [400, 600], guard = 125000",
        "GuardTooLong",
    ),
];

#[test]
fn a_changed_loose_domain_is_refused_by_its_first_fault(rt: HostRuntime) {
    for (old, new, wanted) in LOOSE_CHANGES {
        assert!(rt;
            changed_answers(rt.alloc(), LOOSE, old, new, wanted),
            "{new}: {wanted}"
        );
    }
}

/// Returns whether a domain is that one, with the key below.
fn is_loose(domain: &Domain) -> bool {
    let first = Link {
        from: 0,
        to: Node::Bridge(1),
        rate: Rate::Mb1000,
        delay: 600,
        least: 400,
        guard: Some(2000),
    };
    domain.sync() == Nanos(500)
        && domain.overhead() == 22
        && domain.links() == 2
        && domain.link(0) == first
}

/// The keys of that domain's times, and one more: its gates leave 22 octets of each frame out.
const WITH_OVERHEAD: &str = "sync = 500\ngate-overhead = 22";

/// Returns whether that domain is read and copied, with that key and with a guard band of its own for the first link.
fn is_loose_read(alloc: Global) -> bool {
    let Ok(short) = LOOSE.replacen(alloc, "sync = 500", WITH_OVERHEAD, 1) else {
        return false;
    };
    let Ok(text) = short.replacen(alloc, "600]", "600], guard = 2000", 1) else {
        return false;
    };
    let Ok(domain) = Domain::read(alloc, text.as_bytes()) else {
        return false;
    };
    match domain.try_copy(alloc) {
        Ok(copy) => is_loose(&domain) && is_loose(&copy),
        Err(_) => false,
    }
}

#[test]
fn clocks_and_links_own_times_are_read_and_copied(rt: HostRuntime) {
    assert!(rt; is_loose_read(rt.alloc()));
}

/// Each rate in Mb/s; the nanoseconds of the gap after a frame, and of a shortest frame with its preamble.
const RATES: &[(u32, u32, u32)] = &[
    (10, 9600, 57600),
    (100, 960, 5760),
    (1000, 96, 576),
    (2500, 39, 231),
    (5000, 20, 116),
    (10000, 10, 58),
    (25000, 4, 24),
    (40000, 3, 15),
    (100_000, 1, 6),
];

/// Returns whether a domain of one link at a rate, with no delay, gets this answer.
fn rate_answers(alloc: Global, guard: u32, sync: u32, rate: u32, wanted: &str) -> bool {
    let text = format!(in alloc;
        "cycle = 125000\nguard = {guard}\nsync = {sync}\nbridges = [\"a\"]\nstations = [\"s\"]\nlinks = [{{ from = \"a\", to = \"s\", rate = {rate}, delay = 0 }}]\n"
    );
    match text {
        Ok(text) => answers(alloc, text.as_bytes(), wanted),
        Err(_) => false,
    }
}

#[test]
fn each_rate_has_its_gap_and_its_shortest_frame(rt: HostRuntime) {
    for (rate, gap, shortest) in RATES {
        assert!(rt; rate_answers(rt.alloc(), *gap, 0, *rate, "read"), "{rate}");
        if *gap > 1 {
            assert!(rt;
                rate_answers(rt.alloc(), *gap - 1, 0, *rate, "GapTooLong 0"),
                "{rate}"
            );
        }
        assert!(rt;
            rate_answers(rt.alloc(), 100_000, *shortest, *rate, "read"),
            "{rate}"
        );
        assert!(rt;
            rate_answers(rt.alloc(), 100_000, *shortest + 1, *rate, "SyncTooLong 0"),
            "{rate}"
        );
    }
    assert!(rt; rate_answers(rt.alloc(), 100_000, 0, 2501, "BadValue rate"));
}

/// The guard band and the rate of the one link, others in their places, and the answer: a gap is within the guard band.
const GAPS: &[(&str, &str)] = &[
    (
        "guard = 9600\nbridges = [\"a\"]\nstations = [\"s\"]\n\n[[links]]\nfrom = \"a\"\nto = \"s\"\nrate = 10\n",
        "read",
    ),
    (
        "guard = 9599\nbridges = [\"a\"]\nstations = [\"s\"]\n\n[[links]]\nfrom = \"a\"\nto = \"s\"\nrate = 10\n",
        "GapTooLong 0",
    ),
    (
        "guard = 5000\nbridges = [\"a\"]\nstations = [\"s\"]\n\n[[links]]\nfrom = \"a\"\nto = \"s\"\nrate = 11\n",
        "BadValue rate",
    ),
];

/// The text that they replace.
const NO_GAP: &str =
    "guard = 5000\nbridges = [\"a\"]\nstations = [\"s\"]\n\n[[links]]\nfrom = \"a\"\nto = \"s\"\nrate = 1000\n";

/// 32 bridges.
const MANY: &str = "cycle = 125000\nguard = 5000\nstations = []\nlinks = []\nbridges = [\
    \"0\", \"1\", \"2\", \"3\", \"4\", \"5\", \"6\", \"7\", \"8\", \"9\", \"10\", \"11\", \"12\", \"13\", \"14\", \"15\", \"16\", \
    \"17\", \"18\", \"19\", \"20\", \"21\", \"22\", \"23\", \"24\", \"25\", \"26\", \"27\", \"28\", \"29\", \"30\", \"31\"]";

/// Other texts, and the answers.
const OTHERS: &[(&[u8], &str)] = &[
    (b"", "Missing cycle"),
    (b"bridges = [\"\xff\"]", "NotToml"),
    (
        b"cycle = 125000\nguard = 5000\nbridges = [\"a\"]\nstations = []\nlinks = [7]\n",
        "BadValue links",
    ),
];

#[test]
fn other_texts_are_refused_by_their_first_fault(rt: HostRuntime) {
    for (new, wanted) in GAPS {
        assert!(rt;
            changed_answers(rt.alloc(), one_link(), NO_GAP, new, wanted),
            "{wanted}"
        );
    }
    for (text, wanted) in OTHERS {
        assert!(rt; answers(rt.alloc(), text, wanted), "{wanted}");
    }
    assert!(rt; changed_answers(rt.alloc(), MANY, "", "", "read"));
    assert!(rt; changed_answers(rt.alloc(), MANY, "\"31\"]", "\"31\", \"32\"]", "TooMany"));
}

/// Names, and the nodes of the line that have them.
const NODES: &[(&str, Option<Node>)] = &[
    ("b", Some(Node::Bridge(1))),
    ("s", Some(Node::Station(0))),
    ("q", None),
    ("A", None),
];

/// The last link of the line.
const LAST: Link = Link {
    from: 2,
    to: Node::Station(0),
    rate: Rate::Mb1000,
    delay: 500,
    least: 500,
    guard: None,
};

/// Returns whether a domain has the times, names, nodes and the last link of the line.
fn is_line(domain: &Domain) -> bool {
    if domain.bridges() != 3 || domain.stations() != 1 || domain.links() != 3 {
        return false;
    }
    domain.cycle_time() == Nanos(125_000)
        && domain.guard() == Nanos(5000)
        && domain.sync() == Nanos(0)
        && domain.overhead() == 0
        && domain.bridge_name(2).as_str() == "c"
        && domain.station_name(0).as_str() == "s"
        && domain.link(2) == LAST
        && NODES.iter().all(|(name, node)| domain.find(name) == *node)
}

/// A stream along the line.
const X: Asked = ("x", 1500, &[&["a", "b", "c", "s"]]);

/// Returns whether a stream of 1,500 octets is held on the last of three links.
fn is_held(asked: &Admission) -> bool {
    asked.domain().links() == 3 && asked.held_on(2).0 == 1960
}

/// Returns whether a domain serves as the line: an admission over it grants a stream along it.
fn serves(alloc: Global, domain: &Domain) -> bool {
    match (Admission::new(alloc, domain), request(alloc, &X)) {
        (Ok(mut asked), Ok(x)) => asked.admit(0, &x).is_ok() && is_held(&asked),
        _ => false,
    }
}

/// Returns whether a copy serves as the line, and the domain from which it was made is still the line after the copy is dropped.
fn is_copied(alloc: Global, domain: &Domain) -> bool {
    let serves = match domain.try_copy(alloc) {
        Ok(copy) => is_line(&copy) && serves(alloc, &copy) && is_line(domain),
        Err(_) => false,
    };
    serves && is_line(domain)
}

/// Returns whether that holds for a domain, and a copy is still the line after the domain is dropped.
fn are_line(alloc: Global, domain: Domain) -> bool {
    let is_right = is_copied(alloc, &domain);
    match domain.try_copy(alloc) {
        Ok(copy) => {
            drop(domain);
            is_right && is_line(&copy) && serves(alloc, &copy)
        }
        Err(_) => false,
    }
}

/// A bridge, a node, and the number of the ring's link between them.
const LINKS_OF_RING: &[(u16, Node, Option<u16>)] = &[
    (0, Node::Bridge(1), Some(0)),
    (2, Node::Station(0), Some(2)),
    (0, Node::Bridge(2), Some(3)),
    (2, Node::Bridge(0), Some(4)),
    (1, Node::Bridge(0), None),
];

/// Returns whether a domain's links have the numbers of the ring's.
fn is_ring(domain: &Domain) -> bool {
    domain.links() == 5
        && LINKS_OF_RING.iter().all(|(from, to, number)| domain.find_link(*from, *to) == *number)
}

/// Returns whether the line's text is read and copied, and the ring's read.
fn are_read(alloc: Global) -> bool {
    let is_line = match Domain::read(alloc, line().as_bytes()) {
        Ok(domain) => are_line(alloc, domain),
        Err(_) => false,
    };
    let is_ring = match Domain::read(alloc, ring().as_bytes()) {
        Ok(domain) => is_ring(&domain),
        Err(_) => false,
    };
    is_line && is_ring
}

#[test]
fn domains_are_read_and_copied_and_links_numbered_in_their_order(rt: HostRuntime) {
    assert!(rt; are_read(rt.alloc()));
}

/// The stream of a text of one branch, and of one of two.
const BRANCHING_X: Asked = ("x", 1500, &[&["a", "b", "c", "s"], &["a", "b", "t"]]);

/// Changes the name, the octets, and the first node of the first branch of a request, and drops its other branches.
fn is_changed(alloc: Global, request: &mut Request) -> bool {
    let (Ok(name), Ok(node)) = (String::from_str(alloc, "y"), String::from_str(alloc, "q")) else {
        return false;
    };
    request.name = name;
    request.octets = 64;
    request.paths.truncate(1);
    match request.paths.first_mut() {
        Some(path) => match path.first_mut() {
            Some(first) => {
                *first = node;
                true
            }
            None => false,
        },
        None => false,
    }
}

/// What either stream is afterwards.
const CHANGED: Asked = ("y", 64, &[&["q", "b", "c", "s"]]);

/// Returns whether a request and a copy are as expected, the request still when the copy is changed, and another copy when the request is.
fn is_asked(alloc: Global, asked: &Asked, own: &mut Request) -> bool {
    let (Ok(mut copy), Ok(other)) = (own.try_copy(alloc), own.try_copy(alloc)) else {
        return false;
    };
    is_request(own, asked)
        && is_request(&copy, asked)
        && is_changed(alloc, &mut copy)
        && is_request(&copy, &CHANGED)
        && is_request(own, asked)
        && is_changed(alloc, own)
        && is_request(own, &CHANGED)
        && is_request(&other, asked)
}

/// Returns whether the text's only request is as expected.
fn asks_for(alloc: Global, text: &str, asked: &Asked) -> bool {
    let Ok(mut requests) = read_streams(alloc, text.as_bytes()) else {
        return false;
    };
    match requests.as_mut_slice() {
        [own] => is_asked(alloc, asked, own),
        _ => false,
    }
}

#[test]
fn streams_have_one_branch_or_several(rt: HostRuntime) {
    let one = "[[streams]]\nname = \"x\"\noctets = 1500\npath = [\"a\", \"b\", \"c\", \"s\"]\n";
    assert!(rt; asks_for(rt.alloc(), one, &X));
    let two =
        "[[streams]]\nname = \"x\"\noctets = 1500\npaths = [[\"a\", \"b\", \"c\", \"s\"], [\"a\", \"b\", \"t\"]]\n";
    assert!(rt; asks_for(rt.alloc(), two, &BRANCHING_X));
}

/// Returns whether a fault of a streams text prints as this text.
fn streams_print(alloc: Global, fault: StreamsFault, wanted: &str) -> bool {
    match format!(in alloc; "{fault}") {
        Ok(text) => text.as_str() == wanted,
        Err(_) => false,
    }
}

/// Returns whether a streams text gets this answer.
fn streams_answer(alloc: Global, text: &str, wanted: &str) -> bool {
    match read_streams(alloc, text.as_bytes()) {
        Ok(_requests) => wanted == "read",
        Err(fault) => streams_print(alloc, fault, wanted),
    }
}

/// Streams texts, and the answers.
const STREAMS: &[(&str, &str)] = &[
    ("streams = []", "read"),
    ("", "Missing streams"),
    ("streams =", "NotToml"),
    ("[[streams]]\noctets = -1\npath = []", "Missing name"),
    ("streams = [7]", "BadValue streams"),
    (
        "[[streams]]\nname = \"x\"\noctets = -1\npath = 7",
        "BadValue octets",
    ),
    ("[[streams]]\nname = \"x\"\noctets = 64", "Missing path"),
    ("[[streams]]\nname = \"x\"\noctets = 64\npaths = []", "read"),
    (
        "[[streams]]\nname = \"x\"\noctets = 64\npaths = [7]",
        "BadValue paths",
    ),
    (
        "[[streams]]\nname = \"x\"\noctets = 64\npath = []\npaths = []",
        "BadValue paths",
    ),
    (
        "[[streams]]\nname = \"x\"\noctets = 64\npath = 7\npaths = []",
        "BadValue path",
    ),
];

#[test]
fn streams_texts_are_refused_by_their_first_fault(rt: HostRuntime) {
    for (text, wanted) in STREAMS {
        assert!(rt; streams_answer(rt.alloc(), text, wanted), "{text}");
    }
}

/// Returns whether a request is for a stream that is offered in these cycles, and for the other values of the text.
fn is_paced(request: &PacedRequest, every: u32, phase: u32) -> bool {
    request.name.as_str() == "x"
        && request.octets == 64
        && request.every == every
        && request.phase == phase
        && request.paths.len() == 1
}

/// Returns the text of one stream with some keys between the others.
fn with_keys(alloc: Global, keys: &str) -> Result<String, AllocError> {
    format!(in alloc; "[[streams]]\nname = \"x\"\noctets = 64\n{keys}path = [\"a\", \"s\"]\n")
}

/// Returns whether a text's only request, and a copy of it, are for a stream that is offered in these cycles, whether or not its deadline
/// is read too.
fn asks_paced(alloc: Global, text: &str, every: u32, phase: u32) -> bool {
    let Ok(paced) = read_paced_streams(alloc, text.as_bytes()) else {
        return false;
    };
    let Ok(planned) = read_planned_streams(alloc, text.as_bytes()) else {
        return false;
    };
    let ([one], [other]) = (paced.as_slice(), planned.as_slice()) else {
        return false;
    };
    let Ok(copy) = one.try_copy(alloc) else {
        return false;
    };
    is_paced(one, every, phase)
        && is_paced(&copy, every, phase)
        && is_paced(&other.request, every, phase)
}

/// Keys of a stream, and in which cycles it is offered: how far these are apart, and the first of them.
const PACES: &[(&str, u32, u32)] = &[
    ("", 1, 0),
    ("every = 16\nphase = 3\n", 16, 3),
    ("phase = 3\nevery = 16\n", 16, 3),
    ("every = 4\n", 4, 0),
    ("phase = 2\n", 1, 2),
    ("every = 0\nphase = 4294967295\n", 0, 4_294_967_295),
    ("every = 4294967295\n", 4_294_967_295, 0),
];

/// Returns whether the keys of a stream are read as these cycles.
fn are_read_so(alloc: Global, keys: &str, every: u32, phase: u32) -> bool {
    match with_keys(alloc, keys) {
        Ok(text) => asks_paced(alloc, text.as_str(), every, phase),
        Err(_) => false,
    }
}

#[test]
fn streams_are_offered_in_each_cycle_or_in_those_of_a_phase(rt: HostRuntime) {
    for (keys, every, phase) in PACES {
        assert!(rt; are_read_so(rt.alloc(), keys, *every, *phase), "{keys}");
    }
}

/// Returns whether a text is refused with `wanted` by the readers of requests with cycles and of deadlines, and with `unpaced` by the
/// reader of requests without cycles.
fn is_refused_so(alloc: Global, text: &str, wanted: &str, unpaced: &str) -> bool {
    let paced = match read_paced_streams(alloc, text.as_bytes()) {
        Ok(_requests) => wanted == "read",
        Err(fault) => streams_print(alloc, fault, wanted),
    };
    let planned = match read_planned_streams(alloc, text.as_bytes()) {
        Ok(_streams) => wanted == "read",
        Err(fault) => streams_print(alloc, fault, wanted),
    };
    paced && planned && streams_answer(alloc, text, unpaced)
}

/// Texts, the answer if the cycles are read, and the answer if they aren't.
const PACED: &[(&str, &str, &str)] = &[
    (
        "[[streams]]\nname = 7\noctets = -1\nevery = -1\nphase = -1\npath = 7",
        "BadValue name",
        "BadValue name",
    ),
    (
        "[[streams]]\nname = \"x\"\noctets = -1\nevery = -1\nphase = -1\npath = 7",
        "BadValue octets",
        "BadValue octets",
    ),
    (
        "[[streams]]\nname = \"x\"\noctets = 64\nevery = -1\nphase = -1\npath = 7",
        "BadValue every",
        "BadValue path",
    ),
    (
        "[[streams]]\nname = \"x\"\noctets = 64\nevery = 3\nphase = -1\npath = 7",
        "BadValue phase",
        "BadValue path",
    ),
    (
        "[[streams]]\nname = \"x\"\noctets = 64\nevery = 3\nphase = 7\npath = 7",
        "BadValue path",
        "BadValue path",
    ),
    (
        "[[streams]]\nname = \"x\"\noctets = 64\nevery = \"2\"\npath = []",
        "BadValue every",
        "read",
    ),
    (
        "[[streams]]\nname = \"x\"\noctets = 64\nevery = 4294967296\npath = []",
        "BadValue every",
        "read",
    ),
    (
        "[[streams]]\nname = \"x\"\noctets = 64\nphase = 0.5\npath = []",
        "BadValue phase",
        "read",
    ),
    (
        "[[streams]]\nname = \"x\"\noctets = 64\nevery = 2\nphase = 4294967296\npath = []",
        "BadValue phase",
        "read",
    ),
    (
        "[[streams]]\nname = \"x\"\noctets = 64\nevery = -1",
        "Missing path",
        "Missing path",
    ),
];

#[test]
fn cycles_of_streams_are_read_after_octets(rt: HostRuntime) {
    for (text, wanted, unpaced) in PACED {
        assert!(rt; is_refused_so(rt.alloc(), text, wanted, unpaced), "{text}");
    }
}
