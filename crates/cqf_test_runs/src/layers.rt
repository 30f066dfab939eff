//! Runs over bridges in layers: four equal bridges, two bridges that each receive from two of them, and a hub that receives from these two.
//! So frames that tie at one layer arrive at the next in the order given by the first, and tie there again.
use crate::cases::{Case, first_wrong};
use crate::paths::Wanted;
use cqf_model::Reason;
use cqf_test_fixtures::Begun;

/// Links 1 b>m and 3 a>m, 2 d>n and 4 c>n, 0 n>h and 5 m>h, and 6 h>s.
const LAYERS: &str = r#"cycle = 125000
guard = 5000
bridges = ["h", "m", "n", "a", "b", "c", "d"]
stations = ["s"]
links = [
    { from = "n", to = "h", rate = 1000, delay = 500 },
    { from = "b", to = "m", rate = 1000, delay = 500 },
    { from = "d", to = "n", rate = 1000, delay = 500 },
    { from = "a", to = "m", rate = 1000, delay = 500 },
    { from = "c", to = "n", rate = 1000, delay = 500 },
    { from = "m", to = "h", rate = 1000, delay = 500 },
    { from = "h", to = "s", rate = 1000, delay = 500 },
]
"#;

/// A stream from each bridge except n, and a second one from a.
const STREAMS: &str = r#"streams = [
    { name = "xa", octets = 600, path = ["a", "m", "h", "s"] },
    { name = "xb", octets = 600, path = ["b", "m", "h", "s"] },
    { name = "xc", octets = 600, path = ["c", "n", "h", "s"] },
    { name = "xd", octets = 600, path = ["d", "n", "h", "s"] },
    { name = "xm", octets = 600, path = ["m", "h", "s"] },
    { name = "xh", octets = 600, path = ["h", "s"] },
    { name = "ya", octets = 600, path = ["a", "m", "h", "s"] },
]"#;

/// All streams except the second one from a are admitted.
const SIX: &str = "0 admit xa\n0 admit xb\n0 admit xc\n0 admit xd\n0 admit xm\n0 admit xh\n";

/// Two frames of 64 octets from each of the four, and at m and h offers at exactly the instants at which such frames arrive there: the
/// first of each link 1,076 ns into a cycle, and the next one 672 ns later.
const OFFERS: &str = "at,bridge,stream,octets
1000,a,xa,64
1000,b,xb,64
1000,c,xc,64
1000,d,xd,64
1000,d,xd,64
1000,c,xc,64
1000,b,xb,64
1000,a,xa,64
126076,m,xm,64
126076,m,xm,64
126748,m,xm,64
251076,h,xh,64
251076,h,xh,64
251748,h,xh,64
";

/// At m, link 1 comes before link 3, and both before the offers: 2, 1, 9 and 10 arrive at once, and 672 ns later 7, 8 and 11. At n link 2
/// comes before link 4: 4 and 3, and then 5 and 6. So n and m send 4 and 2 first, then 3 and 1, then 5 and 9, and so on: at h two of them
/// arrive at once each time, by link 0 and link 5, and the offers follow the first two and the second two.
const IN_LAYERS: &[Begun] = &[
    (1, 1, 2, 64, 125_000),
    (1, 1, 7, 64, 125_672),
    (1, 2, 4, 64, 125_000),
    (1, 2, 5, 64, 125_672),
    (1, 3, 1, 64, 125_000),
    (1, 3, 8, 64, 125_672),
    (1, 4, 3, 64, 125_000),
    (1, 4, 6, 64, 125_672),
    (2, 0, 4, 64, 250_000),
    (2, 0, 3, 64, 250_672),
    (2, 0, 5, 64, 251_344),
    (2, 0, 6, 64, 252_016),
    (2, 5, 2, 64, 250_000),
    (2, 5, 1, 64, 250_672),
    (2, 5, 9, 64, 251_344),
    (2, 5, 10, 64, 252_016),
    (2, 5, 7, 64, 252_688),
    (2, 5, 8, 64, 253_360),
    (2, 5, 11, 64, 254_032),
    (3, 6, 4, 64, 375_000),
    (3, 6, 2, 64, 375_672),
    (3, 6, 12, 64, 376_344),
    (3, 6, 13, 64, 377_016),
    (3, 6, 3, 64, 377_688),
    (3, 6, 1, 64, 378_360),
    (3, 6, 14, 64, 379_032),
    (3, 6, 5, 64, 379_704),
    (3, 6, 9, 64, 380_376),
    (3, 6, 6, 64, 381_048),
    (3, 6, 10, 64, 381_720),
    (3, 6, 7, 64, 382_392),
    (3, 6, 8, 64, 383_064),
    (3, 6, 11, 64, 383_736),
];

const OVER_LAYERS: &[Case] = &[
    Case {
        streams: STREAMS,
        script: SIX,
        offers: OFFERS,
        background: &[],
        cycles: 4,
        wanted: Wanted {
            many: 33,
            starts: IN_LAYERS,
            background: &[],
            drops: &[],
        },
    },
    // background frames change none of these starts. On link 5 the first one, which takes 8 (1,000 + 8) ns, would end in the guard band
    // from 245,000 on. So it waits for the seven frames of cycle 2, and goes at 250,000 + 7 · 672; the second one goes at once. On link 0
    // there are four frames before the fourth one. On link 6 there are fourteen before the fifth and the third one, which go by class
    Case {
        streams: STREAMS,
        script: SIX,
        offers: OFFERS,
        background: &[
            (240_000, 5, 3, 1000),
            (244_000, 5, 1, 64),
            (370_001, 6, 0, 1522),
            (250_000, 0, 2, 100),
            (376_000, 6, 5, 64),
        ],
        cycles: 4,
        wanted: Wanted {
            many: 33,
            starts: IN_LAYERS,
            background: &[
                (1, 5, 2, 64, 244_000),
                (2, 0, 4, 100, 252_688),
                (2, 5, 1, 1000, 254_704),
                (3, 6, 5, 64, 384_408),
                (3, 6, 3, 1522, 385_080),
            ],
            drops: &[],
        },
    },
    // xa is withdrawn from cycle 1 on, while its frame 1 is under way. That frame ties at m in cycle 1 all the same, and ya begins. xa is
    // held up to cycle 3
    Case {
        streams: STREAMS,
        script: "0 admit xa
0 admit xb
0 admit xc
0 admit xd
0 admit xm
0 admit xh
seal
0 withdraw xa
0 admit ya
",
        offers: "at,bridge,stream,octets
1000,a,xa,64
1000,b,xb,64
126076,a,xa,64
126076,a,ya,64
126076,m,xm,64
251076,m,xm,64
375000,a,xa,64
500000,a,xa,64
",
        background: &[],
        cycles: 5,
        wanted: Wanted {
            many: 13,
            starts: &[
                (1, 1, 2, 64, 125_000),
                (1, 3, 1, 64, 125_000),
                (2, 3, 4, 64, 250_000),
                (2, 5, 2, 64, 250_000),
                (2, 5, 1, 64, 250_672),
                (2, 5, 5, 64, 251_344),
                (3, 5, 4, 64, 375_000),
                (3, 5, 6, 64, 375_672),
                (3, 6, 2, 64, 375_000),
                (3, 6, 1, 64, 375_672),
                (3, 6, 5, 64, 376_344),
                (4, 6, 4, 64, 500_000),
                (4, 6, 6, 64, 500_672),
            ],
            background: &[],
            drops: &[
                (1, 3, 3, 64, Reason::Withdrawn),
                (3, 3, 7, 64, Reason::Withdrawn),
                (4, 3, 8, 64, Reason::Unknown),
            ],
        },
    },
];

#[test]
fn frames_tie_in_layers(rt: HostRuntime) {
    assert_eq!(rt; first_wrong(rt.alloc(), LAYERS, OVER_LAYERS), None);
}
