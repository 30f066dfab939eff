//! Networks as texts in TOML.
//!
//! [`write_network`] returns the text of a planned network: the tables of its file, with what was chosen filled in.
//! [`filled_networks_read_back`] is the law that every command reads such a text as the file's network, with what was chosen.
//!
//! [`write_plan`] returns the text of an accepted domain and its streams, with their deadlines and traffic.
//! [`written_plans_read_back`] is the law that every command reads such a text as exactly that domain and these streams.
//!
//! ```text
//! bridges = ["stage"]
//! cycle = 125000
//! guard = 4000
//! stations = ["mixer"]
//!
//! [[links]]
//! delay = 500
//! from = "stage"
//! rate = 1000
//! to = "mixer"
//!
//! [[streams]]
//! deadline = 193804
//! frames = 1
//! interval = 125000
//! jitter = 0
//! name = "mic"
//! octets = 704
//! offset = 0
//! path = ["stage", "mixer"]
//! size = 704
//! ```
//!
//! is the text of a domain with one link, and one stream with a deadline and traffic. A stream that isn't offered in
//! each cycle also has `every` and `phase`. A domain whose clocks may differ also has `sync`. A link with its own guard
//! band also has `guard`. A link whose delay varies has both delays, as `delay = [400, 600]`.
#![tactic(auto)]

mod domain;
mod filling;
mod laws;
mod ordered;
mod plan;
mod same;
mod streams;
mod tables;

pub use filling::{FilledStream, elements_at, write_network};
pub use laws::{filled_networks_read_back, read_streams_are_expressible, written_plans_read_back};
pub use ordered::text_of_network;
pub use plan::write_plan;
pub use tables::{put_text, put_value};
