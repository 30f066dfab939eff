//! Starts in the runs of small histories, computed by hand.
use crate::cases::{Case, first_wrong};
use crate::paths::Wanted;
use cqf_model::Reason;
use cqf_test_fixtures::{fork, line};

/// Over the line.
const OVER_LINE: &[Case] = &[
    // x is withdrawn from cycle 1 on, y is never live, and z begins in cycle 1. x's frame of cycle 0 is sent on a link in each later cycle
    // of the run. The frame offered in cycle 3, when the run is over, isn't sent
    Case {
        streams: r#"streams = [
    { name = "x", octets = 1500, path = ["a", "b", "c", "s"] },
    { name = "y", octets = 64, path = ["a", "b", "c", "s"] },
    { name = "z", octets = 64, path = ["a", "b", "c", "s"] },
    { name = "late", octets = 64, path = ["a", "b", "c", "s"] },
]"#,
        script: "0 admit x
0 admit y
0 withdraw y
seal
0 withdraw x
0 admit z
seal
seal
seal
0 admit late
",
        offers: "at,bridge,stream,octets
0,a,x,1500
10,a,y,64
125000,a,x,64
125000,a,z,64
375000,a,z,64
",
        background: &[],
        cycles: 3,
        wanted: Wanted {
            many: 3,
            starts: &[
                (1, 0, 1, 1500, 125_000),
                (2, 0, 4, 64, 250_000),
                (2, 1, 1, 1500, 250_000),
            ],
            background: &[],
            drops: &[
                (0, 0, 2, 64, Reason::Withdrawn),
                (1, 0, 3, 64, Reason::Withdrawn),
            ],
        },
    },
    // at b the offer of w comes 100 ns into cycle 1, and the frames of x, which have completely arrived 8 (700 + 8) + 500 and 8 (720 + 808)
    // + 500 ns into the cycle, follow it
    Case {
        streams: r#"streams = [
    { name = "x", octets = 1500, path = ["a", "b", "c", "s"] },
    { name = "w", octets = 64, path = ["b", "c", "s"] },
]"#,
        script: "0 admit x\n0 admit w\n",
        offers: "at,bridge,stream,octets
0,a,x,700
5,a,x,800
6,a,x,64
125100,b,w,64
",
        background: &[],
        cycles: 3,
        wanted: Wanted {
            many: 5,
            starts: &[
                (1, 0, 1, 700, 125_000),
                (1, 0, 2, 800, 130_760),
                (2, 1, 4, 64, 250_000),
                (2, 1, 1, 700, 250_672),
                (2, 1, 2, 800, 256_432),
            ],
            background: &[],
            drops: &[(0, 0, 3, 64, Reason::Octets)],
        },
    },
    // x is withdrawn from cycle 1 on, while a frame of it is under way, which is still sent on all links. y takes its place, and begins at
    // c at exactly the instant at which that frame has completely arrived there. x is held up to cycle 3, and unknown in cycle 4
    Case {
        streams: r#"streams = [
    { name = "x", octets = 1500, path = ["a", "b", "c", "s"] },
    { name = "y", octets = 64, path = ["c", "s"] },
]"#,
        script: "0 admit x
seal
0 withdraw x
0 admit y
",
        offers: "at,bridge,stream,octets
0,a,x,64
0,b,x,64
125000,a,x,64
251076,c,y,64
499999,a,x,64
500000,a,x,64
",
        background: &[],
        cycles: 6,
        wanted: Wanted {
            many: 4,
            starts: &[
                (1, 0, 1, 64, 125_000),
                (2, 1, 1, 64, 250_000),
                (3, 2, 1, 64, 375_000),
                (3, 2, 4, 64, 375_672),
            ],
            background: &[],
            drops: &[
                (0, 1, 2, 64, Reason::OtherBridge),
                (1, 0, 3, 64, Reason::Withdrawn),
                (3, 0, 5, 64, Reason::Withdrawn),
                (4, 0, 6, 64, Reason::Unknown),
            ],
        },
    },
];

/// The line, whose gates leave 22 octets of each frame out.
const UNCOUNTED: &str = r#"cycle = 125000
guard = 5000
gate-overhead = 22
bridges = ["a", "b", "c"]
stations = ["s"]
links = [
    { from = "a", to = "b", rate = 1000, delay = 500 },
    { from = "b", to = "c", rate = 1000, delay = 500 },
    { from = "c", to = "s", rate = 1000, delay = 500 },
]
"#;

/// A gate counts 42 of 64 octets, 84 of 106 and 62 of 84. So 84 reserved octets are those of two frames of 64, or of one of 106; a frame that
/// has 62 counted ones leaves none for one of 64. Whole frames go over the links, each 8 (64 + 20) ns after one of 64 octets.
const OVER_UNCOUNTED: &[Case] = &[Case {
    streams: r#"streams = [
    { name = "x", octets = 84, path = ["a", "b", "c", "s"] },
]"#,
    script: "0 admit x\n",
    offers: "at,bridge,stream,octets
0,a,x,64
5,a,x,64
6,a,x,64
125000,a,x,107
125001,a,x,106
125002,a,x,64
250000,a,x,84
250001,a,x,64
",
    background: &[],
    cycles: 4,
    wanted: Wanted {
        many: 9,
        starts: &[
            (1, 0, 1, 64, 125_000),
            (1, 0, 2, 64, 125_672),
            (2, 0, 5, 106, 250_000),
            (2, 1, 1, 64, 250_000),
            (2, 1, 2, 64, 250_672),
            (3, 0, 7, 84, 375_000),
            (3, 1, 5, 106, 375_000),
            (3, 2, 1, 64, 375_000),
            (3, 2, 2, 64, 375_672),
        ],
        background: &[],
        drops: &[
            (0, 0, 3, 64, Reason::Octets),
            (1, 0, 4, 107, Reason::Octets),
            (1, 0, 6, 64, Reason::Octets),
            (2, 0, 8, 64, Reason::Octets),
        ],
    },
}];

/// Over the line that branches.
const OVER_FORK: &[Case] = &[
    // at b a frame is sent on both links
    Case {
        streams: r#"streams = [
    { name = "x", octets = 1500, paths = [["a", "b", "c", "s"], ["a", "b", "t"]] },
]"#,
        script: "0 admit x\n",
        offers: "at,bridge,stream,octets\n0,a,x,1500\n",
        background: &[],
        cycles: 4,
        wanted: Wanted {
            many: 4,
            starts: &[
                (1, 1, 1, 1500, 125_000),
                (2, 2, 1, 1500, 250_000),
                (2, 3, 1, 1500, 250_000),
                (3, 0, 1, 1500, 375_000),
            ],
            background: &[],
            drops: &[],
        },
    },
    // offers are made at b when the frame arrives, for each of the links on which it is sent, and follow it on both
    Case {
        streams: r#"streams = [
    { name = "x", octets = 1500, paths = [["a", "b", "c", "s"], ["a", "b", "t"]] },
    { name = "y", octets = 200, path = ["b", "t"] },
    { name = "w", octets = 200, path = ["b", "c", "s"] },
]"#,
        script: "0 admit x\n0 admit y\n0 admit w\n",
        offers: "at,bridge,stream,octets
0,a,x,64
126076,b,y,64
126076,b,w,64
126076,b,y,64
",
        background: &[],
        cycles: 4,
        wanted: Wanted {
            many: 8,
            starts: &[
                (1, 1, 1, 64, 125_000),
                (2, 2, 1, 64, 250_000),
                (2, 2, 3, 64, 250_672),
                (2, 3, 1, 64, 250_000),
                (2, 3, 2, 64, 250_672),
                (2, 3, 4, 64, 251_344),
                (3, 0, 1, 64, 375_000),
                (3, 0, 3, 64, 375_672),
            ],
            background: &[],
            drops: &[],
        },
    },
];

#[test]
fn starts_over_the_line(rt: HostRuntime) {
    assert_eq!(rt; first_wrong(rt.alloc(), line(), OVER_LINE), None);
}

#[test]
fn starts_of_frames_whose_octets_gates_leave_out(rt: HostRuntime) {
    assert_eq!(rt; first_wrong(rt.alloc(), UNCOUNTED, OVER_UNCOUNTED), None);
}

#[test]
fn starts_over_the_fork(rt: HostRuntime) {
    assert_eq!(rt; first_wrong(rt.alloc(), fork(), OVER_FORK), None);
}
