//! The help of each command about its input, its output and its work.

/// The help of `port` about standard input.
pub(crate) const PORT_INPUT: &str = r"Standard input has two parts with a line of %% between them:
  a gate list    80 120000
  arrivals       at,class,octets,frame
                 10,6,64,1
Two files can be given instead:
  cqf port --until 1000000 list.txt arrivals.csv";

/// The help of `line` about standard input.
pub(crate) const LINE_INPUT: &str = r"Standard input, or a file, has one part:
  offers         at,bridge,stream,octets
                 0,a,x,1000
  cqf line --cycles 2 offers.csv";

/// The help of a command that reads only a domain and its streams about standard input, followed by more help.
macro_rules! network_input {
    ($command:literal, $more:literal) => {
        concat!(
            r#"Standard input is a plan in two parts with a line of %% between them:
  a domain       links = [{ from = "a", to = "s", rate = 1000, delay = 500 }]
  its streams    streams = [{ name = "x", octets = 1500, path = ["a", "s"] }]
One file with both can be given instead, or 2 to 16 files named *.toml:
  cqf "#,
            $command,
            " plan.toml\n  cqf ",
            $command,
            " domain.toml streams.toml",
            $more
        )
    };
}

/// The help of `compile` about standard input and its output.
pub(crate) const COMPILE_INPUT: &str = network_input!(
    "compile",
    r"
  cqf compile --format tc plan.toml

With --format tc the output is a shell script that sets the same gates in Linux
with its command tc. Run it as root on each bridge, with the bridge's name as
the only argument. Its first lines say what else it needs. It is for hardware
that does all of this itself (full offload) or, with --software, for gates in
Linux itself. The lists of the script are proved; CAVEATS in cqf(1) says what
is not.

With --format env and --bridge NAME the output is the variables that the script
reads on this bridge. With --format json it is the configuration for other
programs.

With --edge-gates each stream has a gate only at the bridge where it enters. The
gates of the other bridges drop nothing, so they may be left out. These bridges
must still give streams' frames class 6 in even cycles and class 7 in odd ones.
Remove there the gates that an earlier script has set."
);

/// The help of `load` about standard input and its output.
pub(crate) const LOAD_INPUT: &str = network_input!(
    "load",
    r"

The output has a line for each link: its rate in Mb/s, its budget, how much of
the budget streams hold and how much is left, the most that one further stream
could reserve in each cycle, the number of streams that use the link, and the
share of the budget that is held, in percent. Budget, held and left are octets
per cycle on the wire, in the fullest cycle. They count what is reserved, not
what is sent. A plan may exceed a budget: left is then below 0. Stations' access
links come last, with what their streams send in a cycle on average.

With --streams the output has a line for each stream on each link instead: the
octets that it reserves, what they cost on the link, K if it reserves them in
one of K cycles, and their share of the link's budget. The greatest share comes
first."
);

/// The help of `latency` about standard input and its output.
pub(crate) const LATENCY_INPUT: &str = network_input!(
    "latency",
    r#"
  cqf latency --strict plan.toml
A stream may have a deadline, in ns:
  { name = "x", octets = 1500, path = ["a", "s"], deadline = 500000 }

The output has a line for each stream and listener: the number of bridges on the
path, the least and the greatest latency of a frame, the most by which arrivals
of frames of one cycle can differ, the stream's deadline and the verdict. Times
are in ns. If from is a station and the stream has traffic (interval, size),
latencies and deadlines begin when the station hands the frame to its access
link. Otherwise they begin with the frame's offer, when the edge bridge has
received it. They end when the listener has received it. The bounds hold for
frames that the reservation covers. Offers beyond the reservation in a cycle are
dropped, also if the verdict is in-time.

With --strict the status is 1 unless every deadline is certain to be kept. The
first line with the verdict late or may-be-late then goes to standard error."#
);

/// The help of `run` about standard input and its work.
pub(crate) const RUN_INPUT: &str =
    r#"Standard input has four or five parts with lines of %% between them:
  a domain       links = [{ from = "a", to = "s", rate = 1000, delay = 500 }]
  its streams    streams = [{ name = "x", octets = 1500, path = ["a", "s"] }]
  a script       0 admit x
                 seal
                 0 withdraw x
  offers         at,bridge,stream,octets
                 0,a,x,64
  background     at,from,to,class,octets
                 120000,a,s,0,1522
Files can be given instead, with the domain and its streams in one:
  cqf run --cycles 5 plan.toml calls.txt offers.csv background.csv
calls.txt may have empty lines, and comments: lines that begin with #. A line @N
comes before the calls of cycle N.

The output is the history of the calls, a line of %%, and the book, which has
every transmission and drop. A run keeps its input and the outcome of each offer
in memory, but not the book. With background frames it also keeps each start
until those of the background frames are known. With --threads it keeps 16
octets for each transmission.

With --threads each bridge and each administrator of the script has a thread of
its own, and cycles are sealed while they run. Lines seal after the first are
ignored, and the history can differ from run to run. The book always agrees with
the history."#;

/// The help of `report` about standard input and its work.
pub(crate) const REPORT_INPUT: &str =
    r"Standard input has the four or five parts of cqf run, or files are given:
  cqf report --cycles 5 plan.toml calls.txt offers.csv

The output has a line for each link: the frames that it carries, their octets,
and the most octets that start in one cycle. Background frames don't count.";

/// The help of `deliveries` about standard input and its output.
pub(crate) const DELIVERIES_INPUT: &str =
    r"Standard input has the four or five parts of cqf run, or files are given:
  cqf deliveries --cycles 5 plan.toml calls.txt offers.csv

The output has a line for each offered frame and each listener of its stream:
the frame, its stream, its octets and the instant of its offer, the listener,
the instant at which the listener has received it, its latency, the stream's
deadline and its fate. Times are in ns. The fate is delivered; late, if the
latency exceeds the deadline; or under-way, if the frame hasn't started on its
last link within N cycles. A frame that is dropped at its edge bridge has one
line with the reason and no listener. If a stream has every, frames in cycles
that aren't its own are dropped. Background frames and offers of later cycles
have no line.";

/// The help of `check` about standard input and its statuses.
pub(crate) const CHECK_INPUT: &str =
    r"Standard input has the four or five parts of cqf run, or files are given:
  cqf check --cycles 5 plan.toml calls.txt offers.csv

The status is 0 if
  no call is refused,
  at least one frame is offered, and each is offered in a cycle that is run,
  no frame is dropped, and
  each frame reaches all its listeners within its stream's deadline.
The output is then one line:
  ok: F frames, D deliveries, W with a deadline
Otherwise the status is 1. Standard error has the first call that is refused,
with its number among the calls (seals don't count) and its reason:
  cqf: check: call N, admit S by ADMINISTRATOR: refused REASON (or withdraw S)
If no call is refused, it has the first frame that is dropped or late:
  cqf: check: frame F of S, offered to B at AT: dropped, REASON
  cqf: check: frame F of S, offered to B at AT: late at LISTENER, LATENCY after
  its offer, deadline DEADLINE (in one line)
If no frame is dropped or late, there are no offers, or the run is too short: no
frame is delivered yet, and N cycles are enough; or U deliveries are under way,
and O offers are of later cycles:
  cqf: check: no frame is offered
  cqf: check: no frame; N cycles would do
  cqf: check: unfinished, under way U, not run O
A refused input has status 1 too, and another line. check looks only at the
given offers, not at background frames. The command latency bounds how long any
frame takes that a reservation covers.";

/// The help of `offers` about standard input and its output.
pub(crate) const OFFERS_INPUT: &str =
    r#"Standard input is a plan in two parts with a line of %% between them:
  a domain       links = [{ from = "a", to = "s", rate = 1000, delay = 500 }]
  its streams    streams = [{ name = "x", octets = 64, path = ["a", "s"],
                   interval = 125000, size = 64 }]
One file with both can be given instead, or 2 to 16 files named *.toml:
  cqf offers --cycles 5 plan.toml

The output is offers for the command run, within N cycles. Each stream with
traffic offers its frames together, once in each interval, the first time at its
offset. Offers are in the order of their instants, then of their streams. With a
seed, the frames of each interval are late at random, by at most the stream's
jitter at its edge bridge. They never come before those of the previous
interval. The same seed gives the same offers."#;

/// The help of `summary` about standard input and its output.
pub(crate) const SUMMARY_INPUT: &str =
    r"Standard input has the four or five parts of cqf run, or files are given:
  cqf summary --cycles 5 plan.toml calls.txt offers.csv

The output has a line for each stream and each of its listeners, with
  how many frames are offered under the stream's name, and how many of them are
  delivered, late, dropped at the edge bridge or under way, as in the command
  deliveries,
  the least, the mean (rounded down) and the greatest latency of the frames that
  were received, late ones too,
  the bound: the greatest latency if all streams of the file are admitted, and
  the stream's deadline.
Times are in ns. A stream whose octets or path are refused has one line and no
listener. Offers under other names share one last line, with the name ?.
Background frames and offers of later cycles don't count.";

/// The help of `hops` about standard input and its output.
pub(crate) const HOPS_INPUT: &str =
    r"Standard input has the four or five parts of cqf run, or files are given:
  cqf hops --cycles 5 --stream x plan.toml calls.txt offers.csv

The output is the book of the run by frame. It has a line for each start of a
frame on a link: the frame with its stream and its octets, the cycle, the link
as FROM>TO, and the instants at which the frame starts there, ends there and is
received at the link's end, in ns. A frame that is dropped at its edge bridge
has one line with the bridge and the reason. --stream selects the lines of one
stream, --frame those of one frame. The status is 1 if no stream of the plan and
no offer has the name, or if there are fewer than F offers. Background frames
have no line.";

/// The help of `plan` about standard input and its output.
pub(crate) const PLAN_INPUT: &str =
    r#"Standard input is a network file in two parts with a line of %% between them:
  a domain       cycle = [250000, 125000]
                 links = [{ from = "a", to = "s", rate = 1000, delay = 500 },
                   { from = "t", to = "a", rate = 100, delay = 500 }]
  its streams    streams = [{ name = "x", from = "t", to = ["s"],
                   interval = 125000, size = 256, deadline = 500000 }]
One file with both can be given instead, or 2 to 16 files named *.toml:
  cqf plan network.toml

A network file may leave open what a plan decides. cycle may be an array of
cycle times to try, in order of preference. --cycle N gives one instead, and
--cycle FROM..TO/STEP gives FROM, FROM + STEP, .. up to TO, at most 1000. A link
with duplex = true is two links, one in each direction. A link from a station is
its access link. In place of octets and path a stream may have
  from            its talker or edge bridge
  to              its listeners
  interval, size  its traffic: a frame of size octets in each interval
  frames          more than one frame in each interval
  jitter          how late a frame may be
Its deadline begins at the talker. With in-step = true the talker is in step
with the network. The stream then has cycles of its own, as many as its interval
needs, and the plan chooses those in which its links are least full.

The output is the file with the plan's decisions put in, for the first good
cycle time: each stream has room, and each deadline is kept. If no cycle time is
good, the status is 1, and standard error has the fault of the best one, at
which the fewest streams lack room or miss a deadline. With --table the output
has a line for each cycle time instead.

Streams are placed in the order of the file. If a stream whose path is open has
no room, up to --tries N other orders are tried at each cycle time, with this
stream before the others whose paths are open. With --best the plan is for the
good cycle time whose tightest deadline has the most slack, not for the first
good one. With --without 'FROM>TO' the plan does without this link, as after a
failure. Streams whose path has the link get another path, all others keep
theirs. With --verbose notes on the plan go to standard error even if it isn't a
terminal."#;

/// The help of `diff` about standard input and its output.
pub(crate) const DIFF_INPUT: &str =
    r"Standard input has two plans, an old and a new one, with a line of %% between
them. Two files can be given instead:
  cqf diff old.toml new.toml

The output is what differs, by name: the domain, its links and its streams; then
the latencies of streams and the loads of links that differ. The status is 1 if
something differs, and otherwise 0, without output. With --quiet, or -q,
standard output stays empty.";

/// The program's help about files and its version.
pub(crate) const MORE_WORDS: &str =
    r"Files come after the command; - is standard input. Without files, everything is
read from standard input. The help of each command has an example. The manual
explains each command in cqf(1), each column in cqf-formats(5) and each error in
cqf-diagnostics(7).

cqf --version, or cqf -V, prints the version";
