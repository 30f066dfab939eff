//! Background frames in the runs of small histories: when they start, computed by hand.
use crate::cases::{Case, first_wrong};
use crate::paths::Wanted;
use cqf_test_fixtures::{line, one_link};

/// The one stream over the one link.
const STREAM: &str = r#"streams = [{ name = "x", octets = 1500, path = ["a", "s"] }]"#;

/// One offer of it, and no offer.
const ONE_OFFER: &str = "at,bridge,stream,octets\n0,a,x,1000\n";

const NO_OFFER: &str = "at,bridge,stream,octets\n";

/// Over the one link. An octet takes 8 ns. On the wire a frame has 8 octets before it and a gap of 12 octets after it. So the stream's
/// frame of 1,000 octets is sent from 125,000 on, and the port is idle again 8 (1,000 + 20) ns later, at 133,160. The guard band of cycle 1
/// begins at 245,000.
const OVER_LINK: &[Case] = &[
    // those that wait for it go by class, not by arrival: 64 octets take 672 ns with their gap
    Case {
        streams: STREAM,
        script: "0 admit x\n",
        offers: ONE_OFFER,
        background: &[
            (130_000, 0, 5, 64),
            (126_000, 0, 0, 100),
            (121_000, 0, 1, 64),
        ],
        cycles: 3,
        wanted: Wanted {
            many: 1,
            starts: &[(1, 0, 1, 1000, 125_000)],
            background: &[
                (1, 0, 1, 64, 133_160),
                (1, 0, 3, 64, 133_832),
                (1, 0, 2, 100, 134_504),
            ],
            drops: &[],
        },
    },
    // 200 octets from 244,000 on end in the guard band, so they wait for cycle 2. 64 octets from 244,424 on end as the guard band begins,
    // so they go; one nanosecond later they wait too, after the higher class. What arrives in the last guard band, or later, doesn't start
    Case {
        streams: STREAM,
        script: "0 admit x\n",
        offers: ONE_OFFER,
        background: &[
            (244_000, 0, 3, 200),
            (244_424, 0, 2, 64),
            (244_425, 0, 2, 64),
            (374_999, 0, 5, 64),
            (375_000, 0, 5, 64),
        ],
        cycles: 3,
        wanted: Wanted {
            many: 1,
            starts: &[(1, 0, 1, 1000, 125_000)],
            background: &[
                (1, 0, 2, 64, 244_424),
                (2, 0, 1, 200, 250_000),
                (2, 0, 3, 64, 251_760),
            ],
            drops: &[],
        },
    },
    // without a stream's frame under way a background frame starts at once
    Case {
        streams: STREAM,
        script: "0 admit x\n",
        offers: NO_OFFER,
        background: &[(130_000, 0, 5, 64)],
        cycles: 3,
        wanted: Wanted {
            many: 0,
            starts: &[],
            background: &[(1, 0, 1, 64, 130_000)],
            drops: &[],
        },
    },
    // and no background frame starts if there is none
    Case {
        streams: STREAM,
        script: "0 admit x\n",
        offers: ONE_OFFER,
        background: &[],
        cycles: 3,
        wanted: Wanted {
            many: 1,
            starts: &[(1, 0, 1, 1000, 125_000)],
            background: &[],
            drops: &[],
        },
    },
];

/// Over the line. The stream's frame of 1,500 octets is on link 1 from 250,000 on, and the link is idle again at 262,160. Frames of the
/// same class and instant go in the order of the list, and the starts are listed by cycle, then link.
const OVER_LINE: &[Case] = &[Case {
    streams: r#"streams = [{ name = "x", octets = 1500, path = ["a", "b", "c", "s"] }]"#,
    script: "0 admit x\n",
    offers: "at,bridge,stream,octets\n0,a,x,1500\n",
    background: &[
        (250_010, 1, 4, 64),
        (10, 1, 4, 64),
        (10, 0, 0, 1522),
        (10, 0, 0, 64),
    ],
    cycles: 3,
    wanted: Wanted {
        many: 2,
        starts: &[(1, 0, 1, 1500, 125_000), (2, 1, 1, 1500, 250_000)],
        background: &[
            (0, 0, 3, 1522, 10),
            (0, 0, 4, 64, 12_346),
            (0, 1, 2, 64, 10),
            (2, 1, 1, 64, 262_160),
        ],
        drops: &[],
    },
}];

#[test]
fn background_starts_after_the_stream(rt: HostRuntime) {
    assert_eq!(rt; first_wrong(rt.alloc(), one_link(), OVER_LINK), None);
}

#[test]
fn background_starts_link_by_link(rt: HostRuntime) {
    assert_eq!(rt; first_wrong(rt.alloc(), line(), OVER_LINE), None);
}
