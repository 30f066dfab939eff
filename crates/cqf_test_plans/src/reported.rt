//! Plans that are written.
use cqf_network_text::write_plan;
use cqf_topology::Domain;
use cqf_traffic::read_flows;
use std::alloc::Global;

/// A plan, by a planner outside this repository: streams with one branch and with several, with a deadline and without.
const PLAN: &str = "bridges = [\"stage\", \"floor\"]
cycle = 125000
guard = 4000
stations = [\"mic-l\", \"mic-r\", \"cam\", \"desk\", \"recorder\", \"speaker\"]

[[links]]
delay = 2500
from = \"stage\"
rate = 1000
to = \"floor\"

[[links]]
delay = 2500
from = \"floor\"
rate = 1000
to = \"stage\"

[[links]]
delay = 900
from = \"stage\"
rate = 1000
to = \"cam\"

[[links]]
delay = 900
from = \"floor\"
rate = 1000
to = \"desk\"

[[links]]
delay = 900
from = \"floor\"
rate = 1000
to = \"recorder\"

[[links]]
delay = 900
from = \"stage\"
rate = 100
to = \"speaker\"

[[streams]]
deadline = 477980
frames = 1
interval = 125000
jitter = 1500
name = \"mic-l\"
octets = 512
offset = 0
paths = [[\"stage\", \"floor\", \"desk\"], [\"stage\", \"floor\", \"recorder\"]]
size = 256

[[streams]]
deadline = 477980
frames = 1
interval = 125000
jitter = 1500
name = \"mic-r\"
octets = 512
offset = 0
paths = [[\"stage\", \"floor\", \"desk\"], [\"stage\", \"floor\", \"recorder\"]]
size = 256

[[streams]]
frames = 1
interval = 75200
jitter = 0
name = \"video\"
octets = 2820
offset = 0
path = [\"stage\", \"floor\", \"recorder\"]
size = 1410

[[streams]]
deadline = 496988
frames = 1
interval = 125000
jitter = 0
name = \"mix\"
octets = 256
offset = 0
path = [\"floor\", \"stage\", \"speaker\"]
size = 256

[[streams]]
frames = 1
interval = 1000000
jitter = 100000
name = \"pan\"
octets = 128
offset = 0
path = [\"floor\", \"stage\", \"cam\"]
size = 128
";

/// A plan with a single bridge.
const ALONE: &str = "bridges = [\"a\"]
cycle = 10000
guard = 1
links = []
stations = []
streams = []
";

/// Streams that aren't offered in each cycle: with traffic and without, in the first of their cycles and in a later one, and one whose
/// phase isn't below its number of cycles.
const PACED: &str = "bridges = [\"a\"]
cycle = 125000
guard = 4000
stations = [\"s\", \"t\"]

[[links]]
delay = 500
from = \"a\"
rate = 1000
to = \"s\"

[[links]]
delay = 500
from = \"a\"
rate = 1000
to = \"t\"

[[streams]]
deadline = 300000
every = 16
frames = 1
interval = 2000000
jitter = 0
name = \"axis\"
octets = 256
offset = 0
path = [\"a\", \"s\"]
phase = 3
size = 256

[[streams]]
every = 4
name = \"valve\"
octets = 64
paths = [[\"a\", \"s\"], [\"a\", \"t\"]]
phase = 0

[[streams]]
every = 1
name = \"never\"
octets = 64
path = [\"a\", \"t\"]
phase = 2
";

/// A plan whose stream is offered in each cycle, and says so.
const EACH_CYCLE: &str = "bridges = [\"a\"]
cycle = 125000
guard = 4000
stations = [\"s\"]
links = [{ from = \"a\", to = \"s\", rate = 1000, delay = 500 }]
streams = [{ name = \"x\", octets = 64, every = 1, phase = 0, path = [\"a\", \"s\"] }]
";

/// The same plan, written.
const EACH_CYCLE_REPORTED: &str = "bridges = [\"a\"]
cycle = 125000
guard = 4000
stations = [\"s\"]

[[links]]
delay = 500
from = \"a\"
rate = 1000
to = \"s\"

[[streams]]
name = \"x\"
octets = 64
path = [\"a\", \"s\"]
";

/// Clocks that may differ, a link whose delay varies, with a guard band of its own, and one at another rate.
const LOOSE: &str = "bridges = [\"a\"]
cycle = 125000
guard = 5000
stations = [\"s\", \"t\"]
streams = []
sync = 500

[[links]]
delay = [400, 600]
from = \"a\"
guard = 2000
rate = 2500
to = \"s\"

[[links]]
delay = 500
from = \"a\"
rate = 100000
to = \"t\"
";

/// A plan that states the defaults for its clocks and for a link's delay, and for a link a guard band that is the domain's.
const EXACT: &str = "bridges = [\"a\"]
cycle = 125000
guard = 5000
sync = 0
stations = [\"s\"]
links = [{ from = \"a\", to = \"s\", rate = 40000, delay = [500, 500], guard = 5000 }]
streams = []
";

/// The same plan, written.
const EXACT_REPORTED: &str = "bridges = [\"a\"]
cycle = 125000
guard = 5000
stations = [\"s\"]
streams = []

[[links]]
delay = 500
from = \"a\"
guard = 5000
rate = 40000
to = \"s\"
";

/// Returns whether a plan that is read and written again is this text.
fn is_reported_as(alloc: Global, text: &str, wanted: &str) -> bool {
    let Ok(domain) = Domain::read(alloc, text.as_bytes()) else {
        return false;
    };
    let Ok(flows) = read_flows(alloc, text.as_bytes()) else {
        return false;
    };
    match write_plan(alloc, &domain, flows.as_slice()) {
        Ok(reported) => reported.as_str() == wanted,
        Err(_) => false,
    }
}

#[test]
fn reported_plans_are_reported_again(rt: HostRuntime) {
    for text in [PLAN, ALONE, PACED, LOOSE] {
        assert!(rt; is_reported_as(rt.alloc(), text, text), "{text}");
    }
}

#[test]
fn streams_of_each_cycle_are_reported_without_their_cycles(rt: HostRuntime) {
    assert!(rt; is_reported_as(rt.alloc(), EACH_CYCLE, EACH_CYCLE_REPORTED));
}

#[test]
fn exact_plans_are_reported_without_what_is_as_if_unsaid(rt: HostRuntime) {
    assert!(rt; is_reported_as(rt.alloc(), EXACT, EXACT_REPORTED));
}
