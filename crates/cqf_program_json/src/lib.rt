//! The command `compile --format json`: the compiled gates as one JSON object, for controllers and for bridges of other makers.
//!
//! - [`json_output`]: for each bridge of the domain, each port with its gate list and each stream gate with its filter, under the names of
//!   the managed objects of IEEE Std 802.1Q-2018, 12.29.1 and 12.31, and how the stream's frames are identified, under those of IEEE Std
//!   802.1CB-2017, clause 9 ([`JsonOutput`]). [`json_holds_the_lists`] proves that the lines of each output, read one by one, give exactly the
//!   compiled lists, bridge by bridge.
//!
//! `specs/` defines the value of an input (`Output`), the text of an output (`Text` with `Arrays`), and how its lines are read (`Items`).
//!
//! For `b"..\nlinks = [{ from = \"a\", to = \"s\", rate = 1000, delay = 500 }]\n%%\nstreams = []\n"`, with a cycle of 125,000 ns and a
//! guard band of 5,000 ns:
//!
//! ```text
//! json_output writes an object with the lines
//!           "link": "a>s",
//!           "interface": null,
//!           "AdminControlListLength": 4,
//!           "AdminControlList": [
//!             { "operationName": "SetGateStates", "gateStatesValue": 191, "timeIntervalValue": 120000 },
//! ```
#![tactic(auto)]

mod arrays;
mod bridges;
mod command;
mod laws;
mod outputs;
mod ports;
mod streams;
mod wired;
mod written;

pub use command::json_output;
pub use laws::json_holds_the_lists;
pub use outputs::JsonOutput;
