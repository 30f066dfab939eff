//! Runs of the plans of `examples/`: the robot cell, the vehicle, the studio, and the stream that replaces another one.
use crate::cases::{Case, first_wrong};
use crate::paths::Wanted;
use cqf_model::Reason;

/// The robot cell, as `factory-cell-plan.toml` has it.
const CELL: &str = r#"cycle = 250000
guard = 20000
bridges = ["belt", "robot", "cabinet"]
stations = ["plc", "valves", "drive"]
links = [
    { from = "belt", to = "robot", rate = 1000, delay = 900 },
    { from = "robot", to = "cabinet", rate = 1000, delay = 900 },
    { from = "cabinet", to = "plc", rate = 1000, delay = 600 },
    { from = "cabinet", to = "robot", rate = 1000, delay = 900 },
    { from = "robot", to = "belt", rate = 1000, delay = 900 },
    { from = "belt", to = "valves", rate = 100, delay = 1500 },
    { from = "robot", to = "drive", rate = 1000, delay = 600 },
]
streams = [
    { name = "axes", octets = 256, deadline = 750000, path = ["robot", "cabinet", "plc"] },
    { name = "setpoints", octets = 256, deadline = 750000, path = ["cabinet", "robot", "drive"] },
    { name = "valves-out", octets = 128, deadline = 1000000, path = ["cabinet", "robot", "belt", "valves"] },
    { name = "camera", octets = 12176, deadline = 1000000, path = ["belt", "robot", "cabinet", "plc"] },
]
"#;

/// The camera's frames, of 1,522 octets, arrive at the robot's switch in cycle 1, completely at 250,000 + 8 (1,522 + 8) + 900 and 12,336 ns
/// later, and follow what the axes offer there at 251,000.
const IN_CELL: &[Case] = &[Case {
    streams: CELL,
    script: "0 admit axes\n0 admit setpoints\n0 admit valves-out\n0 admit camera\n",
    offers: "at,bridge,stream,octets
1000,robot,axes,256
2000,cabinet,setpoints,256
3000,cabinet,valves-out,128
10000,belt,camera,1522
30000,belt,camera,1522
251000,robot,axes,256
252000,cabinet,setpoints,256
253000,cabinet,valves-out,128
",
    background: &[],
    cycles: 5,
    wanted: Wanted {
        many: 20,
        starts: &[
            (1, 0, 4, 1522, 250_000),
            (1, 0, 5, 1522, 262_336),
            (1, 1, 1, 256, 250_000),
            (1, 3, 2, 256, 250_000),
            (1, 3, 3, 128, 252_208),
            (2, 1, 6, 256, 500_000),
            (2, 1, 4, 1522, 502_208),
            (2, 1, 5, 1522, 514_544),
            (2, 2, 1, 256, 500_000),
            (2, 3, 7, 256, 500_000),
            (2, 3, 8, 128, 502_208),
            (2, 4, 3, 128, 500_000),
            (2, 6, 2, 256, 500_000),
            (3, 2, 6, 256, 750_000),
            (3, 2, 4, 1522, 752_208),
            (3, 2, 5, 1522, 764_544),
            (3, 4, 8, 128, 750_000),
            (3, 5, 3, 128, 750_000),
            (3, 6, 7, 256, 750_000),
            (4, 5, 8, 128, 1_000_000),
        ],
        background: &[],
        drops: &[],
    },
}];

/// The vehicle, as `vehicle-backbone-plan.toml` has it.
const VEHICLE: &str = r#"cycle = 500000
guard = 15000
bridges = ["front-left", "front-right", "rear-left", "rear-right", "centre"]
stations = ["computer", "brakes", "steering", "display"]
links = [
    { from = "front-left", to = "centre", rate = 1000, delay = 1200 },
    { from = "front-right", to = "centre", rate = 1000, delay = 1200 },
    { from = "rear-left", to = "front-left", rate = 1000, delay = 1400 },
    { from = "rear-right", to = "front-right", rate = 1000, delay = 1400 },
    { from = "centre", to = "computer", rate = 1000, delay = 700 },
    { from = "centre", to = "front-left", rate = 1000, delay = 1200 },
    { from = "front-left", to = "brakes", rate = 100, delay = 800 },
    { from = "centre", to = "front-right", rate = 1000, delay = 1200 },
    { from = "front-right", to = "steering", rate = 100, delay = 800 },
    { from = "centre", to = "display", rate = 1000, delay = 700 },
]
streams = [
    { name = "radar-left", octets = 6000, deadline = 1500000, path = ["front-left", "centre", "computer"] },
    { name = "radar-right", octets = 6000, deadline = 1500000, path = ["front-right", "centre", "computer"] },
    { name = "rear-camera", octets = 20000, deadline = 2000000, path = ["rear-left", "front-left", "centre", "computer"] },
    { name = "wheel-speeds", octets = 128, deadline = 2000000, path = ["rear-right", "front-right", "centre", "computer"] },
    { name = "brake-command", octets = 128, deadline = 1100000, path = ["centre", "front-left", "brakes"] },
    { name = "steer-command", octets = 128, deadline = 1100000, path = ["centre", "front-right", "steering"] },
    { name = "cluster", octets = 15000, path = ["centre", "display"] },
]
"#;

/// The two radars' frames have completely arrived at the centre at the same instant of cycle 1, 500,000 + 8 (1,500 + 8) + 1,200, and go by
/// link. In cycle 2 the wheels' short frame is the first there, complete at 1,002,288, before the left radar's and the camera's.
const IN_VEHICLE: &[Case] = &[Case {
    streams: VEHICLE,
    script: "0 admit radar-left
0 admit radar-right
0 admit rear-camera
0 admit wheel-speeds
0 admit brake-command
0 admit steer-command
0 admit cluster
",
    offers: "at,bridge,stream,octets
1000,front-left,radar-left,1500
1000,front-right,radar-right,1500
2000,rear-left,rear-camera,1522
5000,rear-right,wheel-speeds,128
9000,centre,brake-command,128
9000,centre,steer-command,128
20000,centre,cluster,1522
501000,front-left,radar-left,1500
",
    background: &[],
    cycles: 5,
    wanted: Wanted {
        many: 17,
        starts: &[
            (1, 0, 1, 1500, 500_000),
            (1, 1, 2, 1500, 500_000),
            (1, 2, 3, 1522, 500_000),
            (1, 3, 4, 128, 500_000),
            (1, 5, 5, 128, 500_000),
            (1, 7, 6, 128, 500_000),
            (1, 9, 7, 1522, 500_000),
            (2, 0, 8, 1500, 1_000_000),
            (2, 0, 3, 1522, 1_012_160),
            (2, 1, 4, 128, 1_000_000),
            (2, 4, 1, 1500, 1_000_000),
            (2, 4, 2, 1500, 1_012_160),
            (2, 6, 5, 128, 1_000_000),
            (2, 8, 6, 128, 1_000_000),
            (3, 4, 4, 128, 1_500_000),
            (3, 4, 8, 1500, 1_501_184),
            (3, 4, 3, 1522, 1_513_344),
        ],
        background: &[],
        drops: &[],
    },
}];

/// The studio, as `studio-plan.toml` has it.
const STUDIO: &str = r#"cycle = 125000
guard = 4000
bridges = ["stage", "floor", "control"]
stations = ["mixer", "recorder", "monitors"]
links = [
    { from = "stage", to = "floor", rate = 1000, delay = 800 },
    { from = "floor", to = "control", rate = 1000, delay = 800 },
    { from = "control", to = "mixer", rate = 1000, delay = 500 },
    { from = "control", to = "recorder", rate = 1000, delay = 500 },
    { from = "control", to = "floor", rate = 1000, delay = 800 },
    { from = "floor", to = "stage", rate = 1000, delay = 800 },
    { from = "stage", to = "monitors", rate = 100, delay = 1000 },
]
streams = [
    { name = "stage-mics", octets = 1408, deadline = 500000, paths = [["stage", "floor", "control", "mixer"], ["stage", "floor", "control", "recorder"]] },
    { name = "camera-1", octets = 4800, deadline = 365000, path = ["floor", "control", "recorder"] },
    { name = "camera-2", octets = 4800, path = ["floor", "control", "recorder"] },
    { name = "monitor-mix", octets = 704, path = ["control", "floor", "stage", "monitors"] },
]
"#;

/// In cycle 1 the stage's two frames have completely arrived at the floor at 131,496 and 137,288, between the cameras' offers. Frames take
/// 8 · 1,520, 8 · 1,542 and 8 · 724 ns, so the floor's link has 73,488 ns of cameras in cycle 1, and in cycle 2 also two frames of the
/// stage. Each of two cameras has six starts from the offers of each of the cycles 0 and 1, the stage eight, the mix three. From cycle 2 on
/// there are as many as there are cycles left, and one camera. Background frames follow the cameras, of two frames the higher class first.
/// The one for the monitors, which takes 80 · 908 ns, never fits after the mix.
const IN_STUDIO: &[Case] = &[Case {
    streams: STUDIO,
    script: "0 admit stage-mics
0 admit camera-1
0 admit camera-2
0 admit monitor-mix
seal
seal
seal
0 withdraw camera-2
",
    offers: "at,bridge,stream,octets
5000,floor,camera-1,1500
9000,floor,camera-2,1522
18000,floor,camera-1,1500
20000,stage,stage-mics,704
22000,floor,camera-2,1522
31000,floor,camera-1,1500
35000,floor,camera-2,1522
60000,stage,stage-mics,704
90000,control,monitor-mix,704
130000,floor,camera-1,1500
134000,floor,camera-2,1522
143000,floor,camera-1,1500
145000,stage,stage-mics,704
147000,floor,camera-2,1522
156000,floor,camera-1,1500
160000,floor,camera-2,1522
185000,stage,stage-mics,704
195000,floor,camera-1,1000
215000,control,monitor-mix,704
255000,floor,camera-1,1500
268000,floor,camera-1,1500
270000,stage,stage-mics,704
281000,floor,camera-1,1500
310000,stage,stage-mics,704
340000,control,monitor-mix,704
350000,stage,monitor-mix,64
380000,floor,camera-1,1500
384000,floor,camera-2,1522
393000,floor,camera-1,1500
395000,stage,stage-mics,704
397000,floor,camera-2,1522
406000,floor,camera-1,1500
410000,floor,camera-2,1522
435000,stage,stage-mics,704
465000,control,monitor-mix,704
505000,floor,camera-1,1500
518000,floor,camera-1,1500
520000,stage,stage-mics,704
531000,floor,camera-1,1500
560000,stage,stage-mics,704
590000,control,monitor-mix,704
630000,floor,camera-1,1500
643000,floor,camera-1,1500
645000,stage,stage-mics,704
656000,floor,camera-1,1500
685000,stage,stage-mics,704
715000,control,monitor-mix,704
",
    background: &[
        (2_000, 1, 0, 1522),
        (118_000, 1, 1, 1522),
        (130_000, 1, 0, 800),
        (260_000, 3, 3, 1522),
        (300_000, 6, 0, 900),
        (380_000, 1, 2, 1522),
        (381_000, 1, 0, 1522),
        (500_000, 2, 0, 1500),
    ],
    cycles: 5,
    wanted: Wanted {
        many: 64,
        starts: &[
            (2, 1, 10, 1500, 250_000),
            (2, 1, 4, 704, 262_160),
            (2, 1, 11, 1522, 267_952),
            (2, 1, 8, 704, 280_288),
            (2, 1, 12, 1500, 286_080),
            (2, 1, 14, 1522, 298_240),
            (2, 1, 15, 1500, 310_576),
            (2, 1, 16, 1522, 322_736),
            (3, 6, 9, 704, 375_000),
            (4, 2, 13, 704, 500_000),
            (4, 2, 17, 704, 505_792),
        ],
        background: &[
            (0, 1, 1, 1522, 2_000),
            (1, 1, 2, 1522, 198_488),
            (1, 1, 3, 800, 210_824),
            (2, 3, 4, 1522, 323_488),
            (3, 1, 6, 1522, 423_064),
            (3, 1, 7, 1522, 435_400),
            (4, 2, 8, 1500, 511_584),
        ],
        drops: &[
            (1, 1, 18, 1000, Reason::Octets),
            (2, 0, 26, 64, Reason::OtherBridge),
            (3, 1, 28, 1522, Reason::Withdrawn),
            (3, 1, 31, 1522, Reason::Withdrawn),
            (3, 1, 33, 1522, Reason::Withdrawn),
        ],
    },
}];

/// The stream that replaces another one, as `held-plan.toml` has it.
const HELD: &str = r#"cycle = 125000
guard = 5000
bridges = ["a", "b", "c"]
stations = ["s"]
links = [
    { from = "a", to = "b", rate = 1000, delay = 500 },
    { from = "b", to = "c", rate = 1000, delay = 500 },
    { from = "c", to = "s", rate = 100, delay = 500 },
]
streams = [
    { name = "x", octets = 64, deadline = 400000, path = ["a", "b", "c", "s"] },
    { name = "y", octets = 64, deadline = 137979, path = ["c", "s"] },
]
"#;

/// y is offered at c at the instant at which x's frame has completely arrived there, and follows it on the slow link, 80 (64 + 20) ns
/// later.
const WHILE_HELD: &[Case] = &[Case {
    streams: HELD,
    script: "0 admit x\nseal\n0 withdraw x\n0 admit y\n",
    offers: "at,bridge,stream,octets\n0,a,x,64\n251076,c,y,64\n",
    background: &[],
    cycles: 6,
    wanted: Wanted {
        many: 4,
        starts: &[
            (1, 0, 1, 64, 125_000),
            (2, 1, 1, 64, 250_000),
            (3, 2, 1, 64, 375_000),
            (3, 2, 2, 64, 381_720),
        ],
        background: &[],
        drops: &[],
    },
}];

#[test]
fn a_cell_runs(rt: HostRuntime) {
    assert_eq!(rt; first_wrong(rt.alloc(), CELL, IN_CELL), None);
}

#[test]
fn a_vehicle_runs(rt: HostRuntime) {
    assert_eq!(rt; first_wrong(rt.alloc(), VEHICLE, IN_VEHICLE), None);
}

#[test]
fn a_studio_runs(rt: HostRuntime) {
    assert_eq!(rt; first_wrong(rt.alloc(), STUDIO, IN_STUDIO), None);
}

#[test]
fn a_stream_takes_the_place_of_another(rt: HostRuntime) {
    assert_eq!(rt; first_wrong(rt.alloc(), HELD, WHILE_HELD), None);
}
