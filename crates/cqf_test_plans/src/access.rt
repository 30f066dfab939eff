//! Bounds of access links, and what is left of a talker's word at the edge bridge, computed by hand.
use cqf_access::{Delays, access_bound, edge_jitter, edge_offset, grid_jitter};
use cqf_traffic::{Traffic, read_flows};
use cqf_units::{Nanos, Octets, Rate};
use std::alloc::Global;

/// What a talker promises: its interval, its frames in each, their size and their jitter.
type Promise = (u32, u32, u32, u32);

/// A link with the largest frame of no stream, what its talkers promise, and its least bound, if that is at most the given limit, in
/// nanoseconds.
struct Case {
    rate: Rate,
    other: Option<u32>,
    promises: &'static [Promise],
    most: u32,
    bound: Option<u64>,
}

/// Returns the promise as a stream's text has it.
fn traffic_of(alloc: Global, promise: Promise) -> Option<Traffic> {
    let (interval, frames, size, jitter) = promise;
    let text = format!(in alloc;
        "[[streams]]\nname = \"mic\"\noctets = 64\npath = [\"stage\", \"desk\"]\ninterval = {interval}\nframes = {frames}\nsize = {size}\njitter = {jitter}\n"
    ).ok()?;
    let flows = read_flows(alloc, text.as_bytes()).ok()?;
    let flow = flows.first()?;
    flow.traffic
}

/// Returns whether the bound is the expected one.
fn is_found(alloc: Global, case: &Case) -> bool {
    let mut promises = Vec::new(alloc);
    for promise in case.promises {
        let Some(traffic) = traffic_of(alloc, *promise) else {
            return false;
        };
        if promises.push(traffic).is_err() {
            return false;
        }
    }
    let other = case.other.map(Octets);
    let found = access_bound(
        case.rate,
        other,
        promises.as_slice(),
        Nanos(u64::from(case.most)),
    );
    found == case.bound.map(Nanos)
}

/// Up to 1 Gb/s an octet takes whole nanoseconds: 800, 80 or 8. A frame takes the time of its octets and of 20 more.
const WHOLE: &[Case] = &[
    // three of 200 octets on the wire, 16,000 ns each
    Case {
        rate: Rate::Mb100,
        other: None,
        promises: &[
            (125_000, 1, 180, 0),
            (125_000, 1, 180, 0),
            (125_000, 1, 180, 0),
        ],
        most: 1_000_000,
        bound: Some(48_000),
    },
    // one of no stream, 12,336 ns, and two of 672 ns: the second arrives 5,000 ns after the first, which is that late
    Case {
        rate: Rate::Mb1000,
        other: Some(1522),
        promises: &[(10_000, 1, 64, 5000)],
        most: 13_680,
        bound: Some(13_680),
    },
    // the same, with a lower limit
    Case {
        rate: Rate::Mb1000,
        other: Some(1522),
        promises: &[(10_000, 1, 64, 5000)],
        most: 13_679,
        bound: None,
    },
    // three of 960 ns, and two of 672 ns in the 4,224 ns that these take
    Case {
        rate: Rate::Mb1000,
        other: None,
        promises: &[(12_000, 3, 100, 0), (4000, 1, 64, 3000)],
        most: 1_000_000,
        bound: Some(4224),
    },
    // a link that one stream fills, and one that a stream would more than fill
    Case {
        rate: Rate::Mb1000,
        other: None,
        promises: &[(672, 1, 64, 0)],
        most: 1_000_000,
        bound: Some(672),
    },
    Case {
        rate: Rate::Mb1000,
        other: None,
        promises: &[(671, 1, 64, 0)],
        most: 100_000,
        bound: None,
    },
    // no stream, with a frame of no stream and without
    Case {
        rate: Rate::Mb10,
        other: Some(1522),
        promises: &[],
        most: 1_233_600,
        bound: Some(1_233_600),
    },
    Case {
        rate: Rate::Mb10,
        other: None,
        promises: &[],
        most: 1_000_000,
        bound: Some(1),
    },
];

/// Above 1 Gb/s, each frame is rounded up by itself: 88 octets on the wire take 7.04 ns at 100 Gb/s, and 1,542 take 4,934.4 ns at 2.5 Gb/s.
const ROUNDED: &[Case] = &[
    Case {
        rate: Rate::Mb100000,
        other: None,
        promises: &[(1000, 1, 68, 0), (1000, 1, 68, 0)],
        most: 1_000_000,
        bound: Some(16),
    },
    Case {
        rate: Rate::Mb2500,
        other: None,
        promises: &[(125_000, 2, 1522, 0)],
        most: 1_000_000,
        bound: Some(9870),
    },
];

#[test]
fn bounds_are_those_by_hand(rt: HostRuntime) {
    for case in WHOLE {
        assert!(rt; is_found(rt.alloc(), case), "{}", case.most);
    }
}

#[test]
fn each_frame_is_rounded_up(rt: HostRuntime) {
    for case in ROUNDED {
        assert!(rt; is_found(rt.alloc(), case), "{}", case.most);
    }
}

/// Returns whether a stream has this jitter at the edge bridge, and its grid has this jitter and this offset there, by a bound of its link
/// and that link's delays, if its shortest frame has `shortest` octets.
fn is_at_edge(
    alloc: Global,
    promise: Promise,
    rate: Rate,
    shortest: u32,
    by: (u64, u64, u64),
    wanted: (u64, u64, u64),
) -> bool {
    let Some(traffic) = traffic_of(alloc, promise) else {
        return false;
    };
    let (bound, least, most) = by;
    let delays = Delays {
        least: Nanos(least),
        most: Nanos(most),
    };
    if !(bound <= 1_000_000_000 && least <= 1_000_000_000 && most <= 1_000_000_000) {
        return false;
    }
    let jitter = edge_jitter(rate, delays, Nanos(bound), Octets(shortest), traffic);
    let late = grid_jitter(rate, delays, Nanos(bound), Octets(shortest), traffic);
    let offset = edge_offset(rate, delays, Octets(shortest), traffic);
    (jitter.0, late.0, offset.0) == wanted
}

/// A frame waits for 32,000 of 48,000 ns, and its delay varies by 200; its path takes 188 octets of 80 ns.
#[test]
fn frames_of_one_size_are_as_late_as_they_wait(rt: HostRuntime) {
    let promise = (125_000, 1, 180, 0);
    let by = (48_000, 400, 600);
    assert!(rt;
        is_at_edge(
            rt.alloc(),
            promise,
            Rate::Mb100,
            180,
            by,
            (32_200, 32_200, 15_440)
        )
    );
}

/// One waits for 5,000 ns less the 1,234 that it takes. Its path is 1,924 ns at most. The path of a shortest frame, of 72 octets with the
/// preamble, is 558 ns at least.
#[test]
fn short_frames_are_early(rt: HostRuntime) {
    let promise = (125_000, 1, 1522, 1000);
    let by = (5000, 500, 700);
    assert!(rt;
        is_at_edge(
            rt.alloc(),
            promise,
            Rate::Mb10000,
            64,
            by,
            (6132, 6132, 558)
        )
    );
}

/// Three frames of 16,000 ns that arrive together wait for one another in each interval, for up to 32,000 ns.
#[test]
fn a_burst_is_no_later_for_itself(rt: HostRuntime) {
    let promise = (125_000, 3, 180, 0);
    let by = (48_000, 400, 600);
    assert!(rt;
        is_at_edge(
            rt.alloc(),
            promise,
            Rate::Mb100,
            180,
            by,
            (200, 32_200, 15_440)
        )
    );
}

/// If they may be as short as 64 octets, two of these take 13,440 ns less, and their path is 9,280 ns shorter. Others take 52,000 ns.
#[test]
fn a_burst_of_short_frames_is_early(rt: HostRuntime) {
    let promise = (125_000, 3, 180, 0);
    let by = (100_000, 400, 600);
    assert!(rt;
        is_at_edge(
            rt.alloc(),
            promise,
            Rate::Mb100,
            64,
            by,
            (80_040, 93_480, 6160)
        )
    );
}
