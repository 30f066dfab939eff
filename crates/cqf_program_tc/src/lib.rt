//! The commands `compile --format tc` and `compile --format env`: the compiled gates as scripts for Linux, by `tc`, and the variables that
//! such a script requires of a bridge.
//!
//! - [`tc_output`]: a POSIX shell script that sets the compiled gates on each bridge by `tc` ([`TcOutput`]), in the hardware of its interfaces
//!   or in software. `put_tx_words` and `write_gate_words` write gate lists as words of `tc`. [`scripts_hold_the_lists`] proves that the words of
//!   each script are read as the compiled lists. [`scripts_call_what_is_due`] reads the script's lines back: each bridge sets these lists at each
//!   of its links, and the gate of each stream with its index and its octets, and no others.
//! - [`env_output`]: the file of a bridge's variables, with the values that the input gives ([`EnvOutput`]). It has exactly those that the
//!   script requires ([`env_has_what_the_script_wants`]).
//! - Variables are named after links and streams, and no two have the same name ([`variables_are_apart`]).
//! - The lists begin at an instant: the first multiple, from BASE on, of the cycles after which all lists begin anew ([`lists_begin_anew`]). It is
//!   below 2^63 ([`instants_fit`]).
//! - [`indices_by_bridge`] returns which streams leave each bridge.
//!
//! `specs/` defines the values of an input (`Output`), the texts of the outputs (`Text` with `Checks`, `Bridge`, `Program` and `Words`, and `Env`),
//! the variables (`Variables`), and how a script and a file are read back (`Calls`, `Wanted`).
//!
//! For `b"..\nlinks = [{ from = \"a-1\", to = \"s\", rate = 1000, delay = 500, interface = \"eth1\" }]\n%%\nstreams = []\n"`, with a cycle
//! of 125,000 ns and a guard band of 5,000 ns:
//!
//! ```text
//! tc_output writes a script with the lines
//!     bridge_0() {
//!         # a-1
//!         port OUT_a_1_s "${OUT_a_1_s:-}" s "interface of a-1 to s"
//!         ready
//!         # link 0 a-1>s
//!         link "$OUT_a_1_s"
//!     }
//! env_output of a-1 writes a file with the lines
//!     # interface of a-1 to s
//!     OUT_a_1_s=eth1
//! ```
#![tactic(auto)]

mod bridges;
mod checks;
mod command;
mod env;
mod frame;
mod ingresses;
mod laws;
mod lists;
mod outputs;
mod plan;
mod program;
mod rows;
mod variables;
mod words;
mod written;

pub use command::{env_output, tc_output};
pub use laws::{
    env_has_what_the_script_wants, instants_fit, lists_begin_anew, scripts_call_what_is_due,
    scripts_hold_the_lists, variables_are_apart,
};
pub use outputs::{EnvOutput, TcOutput};
pub use rows::indices_by_bridge;
