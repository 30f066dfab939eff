//! Runs in which frames arrive at a bridge at the same instant. Those that arrive over links go by the number of their link. Those that are
//! offered there follow all of these, by index.
use crate::cases::{Case, first_wrong};
use crate::paths::Wanted;
use cqf_model::Reason;

/// Four equal bridges that feed a hub: links 0 c>e, 1 a>e, 2 d>e and 3 b>e, and 4 e>s.
const HUB: &str = r#"cycle = 125000
guard = 5000
bridges = ["e", "d", "c", "b", "a"]
stations = ["s"]
links = [
    { from = "c", to = "e", rate = 1000, delay = 500 },
    { from = "a", to = "e", rate = 1000, delay = 500 },
    { from = "d", to = "e", rate = 1000, delay = 500 },
    { from = "b", to = "e", rate = 1000, delay = 500 },
    { from = "e", to = "s", rate = 1000, delay = 500 },
]
"#;

/// A stream from each bridge, and two from the hub.
const STREAMS: &str = r#"streams = [
    { name = "xa", octets = 600, path = ["a", "e", "s"] },
    { name = "xb", octets = 600, path = ["b", "e", "s"] },
    { name = "xc", octets = 600, path = ["c", "e", "s"] },
    { name = "xd", octets = 600, path = ["d", "e", "s"] },
    { name = "xe", octets = 600, path = ["e", "s"] },
    { name = "ye", octets = 600, path = ["e", "s"] },
]"#;

const SCRIPT: &str = "0 admit xa\n0 admit xb\n0 admit xc\n0 admit xd\n0 admit xe\n0 admit ye\n";

/// Over the hub, with frames of 64 octets. A link begins with the first frame at 125,000, the first instant of cycle 1, and sends each
/// other frame 8 (64 + 20), which is 672, ns after the one before it. A frame has completely arrived at the hub 8 (64 + 8) + 500, which is
/// 1,076, ns after it starts.
const OVER_HUB: &[Case] = &[
    // an offer follows what arrives over a link at the same instant: the first frame has completely arrived at 126,076
    Case {
        streams: STREAMS,
        script: SCRIPT,
        offers: "at,bridge,stream,octets
1000,c,xc,64
126075,e,xe,64
126076,e,xe,64
126076,e,ye,64
126077,e,xe,64
",
        background: &[],
        cycles: 3,
        wanted: Wanted {
            many: 6,
            starts: &[
                (1, 0, 1, 64, 125_000),
                (2, 4, 2, 64, 250_000),
                (2, 4, 1, 64, 250_672),
                (2, 4, 3, 64, 251_344),
                (2, 4, 4, 64, 252_016),
                (2, 4, 5, 64, 252_688),
            ],
            background: &[],
            drops: &[],
        },
    },
    // if they are offered in the order of their links, they go in this order
    Case {
        streams: STREAMS,
        script: SCRIPT,
        offers: "at,bridge,stream,octets
1000,c,xc,64
1000,a,xa,64
1000,d,xd,64
1000,b,xb,64
",
        background: &[],
        cycles: 3,
        wanted: Wanted {
            many: 8,
            starts: &[
                (1, 0, 1, 64, 125_000),
                (1, 1, 2, 64, 125_000),
                (1, 2, 3, 64, 125_000),
                (1, 3, 4, 64, 125_000),
                (2, 4, 1, 64, 250_000),
                (2, 4, 2, 64, 250_672),
                (2, 4, 3, 64, 251_344),
                (2, 4, 4, 64, 252_016),
            ],
            background: &[],
            drops: &[],
        },
    },
    // and if they are offered in another order, they still go by their links: two of each bridge; the second one has completely arrived at
    // 126,748
    Case {
        streams: STREAMS,
        script: SCRIPT,
        offers: "at,bridge,stream,octets
1000,a,xa,64
1000,b,xb,64
1000,c,xc,64
1000,d,xd,64
1000,d,xd,64
1000,c,xc,64
1000,b,xb,64
1000,a,xa,64
",
        background: &[],
        cycles: 3,
        wanted: Wanted {
            many: 16,
            starts: &[
                (1, 0, 3, 64, 125_000),
                (1, 0, 6, 64, 125_672),
                (1, 1, 1, 64, 125_000),
                (1, 1, 8, 64, 125_672),
                (1, 2, 4, 64, 125_000),
                (1, 2, 5, 64, 125_672),
                (1, 3, 2, 64, 125_000),
                (1, 3, 7, 64, 125_672),
                (2, 4, 3, 64, 250_000),
                (2, 4, 1, 64, 250_672),
                (2, 4, 4, 64, 251_344),
                (2, 4, 2, 64, 252_016),
                (2, 4, 6, 64, 252_688),
                (2, 4, 8, 64, 253_360),
                (2, 4, 5, 64, 254_032),
                (2, 4, 7, 64, 254_704),
            ],
            background: &[],
            drops: &[],
        },
    },
    // offers of the same instant go by index, and those of them that pass take 8 (100 + 20), 8 (200 + 20) and 8 (64 + 20) ns. xe has too
    // few octets left for the fourth one, and just enough for the fifth one
    Case {
        streams: STREAMS,
        script: SCRIPT,
        offers: "at,bridge,stream,octets
5,e,xe,100
5,e,ye,200
5,e,xe,64
5,e,xe,437
5,e,xe,436
",
        background: &[],
        cycles: 2,
        wanted: Wanted {
            many: 4,
            starts: &[
                (1, 4, 1, 100, 125_000),
                (1, 4, 2, 200, 125_960),
                (1, 4, 3, 64, 127_720),
                (1, 4, 5, 436, 128_392),
            ],
            background: &[],
            drops: &[(0, 0, 4, 437, Reason::Octets)],
        },
    },
];

/// A slow and a fast link to a bridge: 0 g>e, on which an octet takes 80 ns, and 1 f>e; and 2 e>s.
const TWO_RATES: &str = r#"cycle = 125000
guard = 5000
bridges = ["e", "f", "g"]
stations = ["s"]
links = [
    { from = "g", to = "e", rate = 100, delay = 20 },
    { from = "f", to = "e", rate = 1000, delay = 500 },
    { from = "e", to = "s", rate = 1000, delay = 500 },
]
"#;

/// Over these links, the frame of the slow link has completely arrived 80 (64 + 8) + 20, which is 5,780, ns after 125,000, and so has the
/// eighth frame of the fast link, 7 · 672 + 1,076 ns after it.
const OVER_TWO_RATES: &[Case] = &[Case {
    streams: r#"streams = [
    { name = "xe", octets = 64, path = ["e", "s"] },
    { name = "xf", octets = 600, path = ["f", "e", "s"] },
    { name = "xg", octets = 64, path = ["g", "e", "s"] },
]"#,
    script: "0 admit xe\n0 admit xf\n0 admit xg\n",
    offers: "at,bridge,stream,octets
1000,f,xf,64
1000,f,xf,64
1000,f,xf,64
1000,f,xf,64
1000,f,xf,64
1000,f,xf,64
1000,f,xf,64
1000,f,xf,64
1000,g,xg,64
130780,e,xe,64
",
    background: &[],
    cycles: 3,
    wanted: Wanted {
        many: 19,
        starts: &[
            (1, 0, 9, 64, 125_000),
            (1, 1, 1, 64, 125_000),
            (1, 1, 2, 64, 125_672),
            (1, 1, 3, 64, 126_344),
            (1, 1, 4, 64, 127_016),
            (1, 1, 5, 64, 127_688),
            (1, 1, 6, 64, 128_360),
            (1, 1, 7, 64, 129_032),
            (1, 1, 8, 64, 129_704),
            (2, 2, 1, 64, 250_000),
            (2, 2, 2, 64, 250_672),
            (2, 2, 3, 64, 251_344),
            (2, 2, 4, 64, 252_016),
            (2, 2, 5, 64, 252_688),
            (2, 2, 6, 64, 253_360),
            (2, 2, 7, 64, 254_032),
            (2, 2, 9, 64, 254_704),
            (2, 2, 8, 64, 255_376),
            (2, 2, 10, 64, 256_048),
        ],
        background: &[],
        drops: &[],
    },
}];

#[test]
fn frames_of_one_instant_go_by_link_and_offers_after_them(rt: HostRuntime) {
    assert_eq!(rt; first_wrong(rt.alloc(), HUB, OVER_HUB), None);
}

#[test]
fn links_of_two_rates_may_tie(rt: HostRuntime) {
    assert_eq!(rt; first_wrong(rt.alloc(), TWO_RATES, OVER_TWO_RATES), None);
}
