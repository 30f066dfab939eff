//! The commands over a plan: `port`, `compile`, `load` and `latency`.
//!
//! Each command has a function that returns its output for its input, or the end of the run with the line of the input's first fault. An output's
//! `write` writes the output and allocates no memory.
//!
//! - [`port_output`]: the starts of one output port before an instant, by a gate list and the arrivals ([`PortOutput`]).
//! - [`compile_output`]: the gate lists and stream gates of a domain and its streams ([`ConfigOutput`]). [`read_plan`] reads the domain and the
//!   streams of an input. [`rows_of_cycle_0`] returns the rows of streams that are all admitted before cycle 0, and [`stream_stop`] the end if
//!   one isn't.
//! - [`load_output`]: what links hold of the streams, and what they have left, even if the streams are too many for a link ([`LoadOutput`]).
//!   [`greatest_fits`] proves that the column `fits` is the greatest reservation that would be accepted. [`plan_fits`] proves that all streams
//!   are admitted if and only if the column `left` is nowhere below 0.
//! - [`load_streams_output`]: what each stream takes of each of its links, the greatest first ([`StreamLoadsOutput`]).
//! - [`latency_output`]: how long the frames of each stream take to each of its listeners, at least and at most, and whether they are certain to
//!   keep their deadline ([`LatencyOutput`], with one [`Latency`] per line, and its `Verdict`). [`latencies_of_rows`] returns this for the rows
//!   of a table, and [`link_costs`] what they cost of each link in a cycle at most. [`add_cost`] adds the cost of one row to sums. [`parted`]
//!   separates streams from their deadlines. [`written_latencies_hold`] proves that frames take no less and no more time in any run over the plan,
//!   and that the verdicts are true; [`written_latencies_hold_loosely`] proves it for every loose network.
//!
//! Each command has a folder in `src/` and in `specs/`. There `Output` defines the value of an input, and `Written` or `Text` the text of an output
//! (for `latency`, `Latency/Input` defines the value of an input).
//!
//! ```text
//! port_output(alloc, 1_000_000, Rate::Mb1000,
//!     b"80 120000\n00 5000\n40 120000\n00 5000\n%%\nat,class,octets,frame\n10,6,64,1\n")
//! is Ok of an output that writes "class,frame,start,end\n6,1,125000,125576\n"
//! ```
//!
//! For `b"..\nlinks = [{ from = \"a\", to = \"s\", rate = 1000, delay = 500 }]\n%%\nstreams = []\n"`, with a cycle of 125,000 ns and a
//! guard band of 5,000 ns:
//!
//! ```text
//! compile_output writes "link a>s\nBF 120000\n00 5000\n7F 120000\n00 5000\n"
//! load_output writes "link,rate,budget,held,left,fits,streams,used\na>s,1000,15000,0,15000,11440,0,0.0\n"
//! ```
//!
//! And with `streams = [{ name = "x", octets = 64, path = ["a", "s"], deadline = 250000 }]`:
//!
//! ```text
//! latency_output writes "stream,listener,bridges,least,most,window,deadline,verdict\n\
//!     x,s,1,1077,126076,0,250000,in-time\n"
//! ```
#![tactic(auto)]

mod compile;
mod edges;
mod latency;
mod load;
mod port;
mod reserving;
mod row_costs;

pub use compile::command::{compile_output, read_plan, rows_of_cycle_0, stream_stop};
pub use compile::gated::{edge_gates_are_at_the_edge, gated_rows};
pub use compile::outputs::ConfigOutput;
pub use edges::{edge_stop, edges_part, open_edges_part, refuse_full};
pub use latency::command::latency_output;
pub use latency::costs::link_costs;
pub use latency::latencies::Latency;
pub use latency::laws::{written_latencies_hold, written_latencies_hold_loosely};
pub use latency::listeners::{latencies_from_talkers, latencies_of_rows, listener_at, most_to};
pub use latency::outputs::LatencyOutput;
pub use latency::reading::{parted, parted_flows};
pub use latency::writing::put_deadline;
pub use load::access::{AccessLoad, access_loads};
pub use load::command::{load_output, load_streams_output};
pub use load::laws::{greatest_fits, plan_fits};
pub use load::outputs::LoadOutput;
pub use load::reported::megabits_of;
pub use load::streams::StreamLoadsOutput;
pub use port::command::port_output;
pub use port::outputs::PortOutput;
pub use reserving::{flows_stop, requests_at};
pub use row_costs::add_cost;
