//! A run over the deepest path: sixteen bridges.
use crate::cases::{Case, first_wrong};
use crate::paths::Wanted;

/// Sixteen bridges in a line to a station, with links numbered from the last to the first: 15 b0>b1, 14 b1>b2 and so on, up to 0 b15>s.
const DEEP: &str = r#"cycle = 125000
guard = 5000
bridges = ["b0", "b1", "b2", "b3", "b4", "b5", "b6", "b7", "b8", "b9", "b10", "b11", "b12", "b13", "b14", "b15"]
stations = ["s"]
links = [
    { from = "b15", to = "s", rate = 1000, delay = 500 },
    { from = "b14", to = "b15", rate = 1000, delay = 500 },
    { from = "b13", to = "b14", rate = 1000, delay = 500 },
    { from = "b12", to = "b13", rate = 1000, delay = 500 },
    { from = "b11", to = "b12", rate = 1000, delay = 500 },
    { from = "b10", to = "b11", rate = 1000, delay = 500 },
    { from = "b9", to = "b10", rate = 1000, delay = 500 },
    { from = "b8", to = "b9", rate = 1000, delay = 500 },
    { from = "b7", to = "b8", rate = 1000, delay = 500 },
    { from = "b6", to = "b7", rate = 1000, delay = 500 },
    { from = "b5", to = "b6", rate = 1000, delay = 500 },
    { from = "b4", to = "b5", rate = 1000, delay = 500 },
    { from = "b3", to = "b4", rate = 1000, delay = 500 },
    { from = "b2", to = "b3", rate = 1000, delay = 500 },
    { from = "b1", to = "b2", rate = 1000, delay = 500 },
    { from = "b0", to = "b1", rate = 1000, delay = 500 },
]
"#;

/// A frame of x crosses one link per cycle. At the instant at which it arrives at b1, 1,076 ns into cycle 1, y begins, and follows it on
/// each link from there on. At b15 z begins at the instant at which the first of them arrives there, 1,076 ns into cycle 15, and once more
/// when the second one arrives, 672 ns later: it follows each of them. A background frame waits for both at b14, and goes no further than
/// its link.
const OVER_DEEP: &[Case] = &[Case {
    streams: r#"streams = [
    { name = "x", octets = 64, path = ["b0", "b1", "b2", "b3", "b4", "b5", "b6", "b7", "b8", "b9", "b10", "b11", "b12", "b13", "b14", "b15", "s"] },
    { name = "y", octets = 64, path = ["b1", "b2", "b3", "b4", "b5", "b6", "b7", "b8", "b9", "b10", "b11", "b12", "b13", "b14", "b15", "s"] },
    { name = "z", octets = 128, path = ["b15", "s"] },
]"#,
    script: "0 admit x\n0 admit y\n0 admit z\n",
    offers: "at,bridge,stream,octets
0,b0,x,64
126076,b1,y,64
1876076,b15,z,64
1876748,b15,z,64
",
    background: &[(1_876_000, 1, 0, 64)],
    cycles: 17,
    wanted: Wanted {
        many: 33,
        starts: &[
            (1, 15, 1, 64, 125_000),
            (2, 14, 1, 64, 250_000),
            (2, 14, 2, 64, 250_672),
            (3, 13, 1, 64, 375_000),
            (3, 13, 2, 64, 375_672),
            (4, 12, 1, 64, 500_000),
            (4, 12, 2, 64, 500_672),
            (5, 11, 1, 64, 625_000),
            (5, 11, 2, 64, 625_672),
            (6, 10, 1, 64, 750_000),
            (6, 10, 2, 64, 750_672),
            (7, 9, 1, 64, 875_000),
            (7, 9, 2, 64, 875_672),
            (8, 8, 1, 64, 1_000_000),
            (8, 8, 2, 64, 1_000_672),
            (9, 7, 1, 64, 1_125_000),
            (9, 7, 2, 64, 1_125_672),
            (10, 6, 1, 64, 1_250_000),
            (10, 6, 2, 64, 1_250_672),
            (11, 5, 1, 64, 1_375_000),
            (11, 5, 2, 64, 1_375_672),
            (12, 4, 1, 64, 1_500_000),
            (12, 4, 2, 64, 1_500_672),
            (13, 3, 1, 64, 1_625_000),
            (13, 3, 2, 64, 1_625_672),
            (14, 2, 1, 64, 1_750_000),
            (14, 2, 2, 64, 1_750_672),
            (15, 1, 1, 64, 1_875_000),
            (15, 1, 2, 64, 1_875_672),
            (16, 0, 1, 64, 2_000_000),
            (16, 0, 3, 64, 2_000_672),
            (16, 0, 2, 64, 2_001_344),
            (16, 0, 4, 64, 2_002_016),
        ],
        background: &[(15, 1, 1, 64, 1_876_344)],
        drops: &[],
    },
}];

#[test]
fn a_frame_goes_through_sixteen_bridges(rt: HostRuntime) {
    assert_eq!(rt; first_wrong(rt.alloc(), DEEP, OVER_DEEP), None);
}
