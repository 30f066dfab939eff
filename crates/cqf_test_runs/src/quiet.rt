//! Runs with cycles in which nothing happens: the events after these cycles, computed by hand.
use crate::cases::{Case, first_wrong};
use crate::paths::Wanted;
use cqf_test_fixtures::line;

/// Over the line. The first frame is sent on link 0 in cycle 1, on link 1 in cycle 2 and on link 2 in cycle 3; the second one, of cycle 20,
/// from cycle 21 on. Between them a background frame starts as cycle 10 begins. Another one, which arrives as the guard band of cycle 11
/// begins, at 1,495,000, waits for cycle 12.
const OVER_LINE: &[Case] = &[Case {
    streams: r#"streams = [{ name = "x", octets = 1500, path = ["a", "b", "c", "s"] }]"#,
    script: "0 admit x\n",
    offers: "at,bridge,stream,octets\n0,a,x,1500\n2500000,a,x,64\n",
    background: &[(1_495_000, 2, 3, 64), (1_250_000, 1, 0, 1522)],
    cycles: 30,
    wanted: Wanted {
        many: 6,
        starts: &[
            (1, 0, 1, 1500, 125_000),
            (2, 1, 1, 1500, 250_000),
            (3, 2, 1, 1500, 375_000),
            (21, 0, 2, 64, 2_625_000),
            (22, 1, 2, 64, 2_750_000),
            (23, 2, 2, 64, 2_875_000),
        ],
        background: &[(10, 1, 2, 1522, 1_250_000), (12, 2, 1, 64, 1_500_000)],
        drops: &[],
    },
}];

#[test]
fn quiet_cycles_are_passed_over(rt: HostRuntime) {
    assert_eq!(rt; first_wrong(rt.alloc(), line(), OVER_LINE), None);
}
