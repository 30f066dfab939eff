//! What the tests of several crates read, request, offer and expect. Only tests, and trials of failed allocations, use this crate.
//!
//! - **Texts of domains**, which a test can change with `replacen`: [`line`] has three bridges in a line, [`one_link`] has a single bridge,
//!   and [`ring`] also has links between its first and last bridge; [`fork`] is a line that branches. All have a cycle time of 125,000 ns,
//!   a guard band of 5,000 ns, and links of 1,000 Mb/s with a delay of 500 ns.
//! - **What is requested and offered**: [`request`] makes a request from plain values, [`Asked`], and [`is_request`] returns whether one
//!   has these values. [`offers_of`] and [`background_of`] make frames from [`Offering`] and [`Backing`] values. [`admission_of`] returns
//!   an admission that has admitted some streams. [`are_offers`] and [`are_background`] return whether a run of a domain may be given such
//!   frames.
//! - **What is expected**: [`are_begun`] and [`are_dropped`] return whether starts and drops of a book have the given values, [`Begun`] and
//!   [`Fell`].
#![tactic(auto)]

mod admitted;
mod asked;
mod given;
mod offered;
mod reported;

pub use admitted::admission_of;
pub use asked::{Asked, is_request, request};
pub use given::{are_background, are_offers};
pub use offered::{Backing, Offering, background_of, offers_of};
pub use reported::{Begun, Fell, are_begun, are_dropped};

/// Bridges a, b and c, and station s.
const LINE: &str = r#"cycle = 125000
guard = 5000
bridges = ["a", "b", "c"]
stations = ["s"]

[[links]]
from = "a"
to = "b"
rate = 1000
delay = 500

[[links]]
from = "b"
to = "c"
rate = 1000
delay = 500

[[links]]
from = "c"
to = "s"
rate = 1000
delay = 500
"#;

/// Bridge a and station s.
const ONE_LINK: &str = r#"cycle = 125000
guard = 5000
bridges = ["a"]
stations = ["s"]

[[links]]
from = "a"
to = "s"
rate = 1000
delay = 500
"#;

/// Bridges a, b and c, and station s.
const RING: &str = r#"cycle = 125000
guard = 5000
bridges = ["a", "b", "c"]
stations = ["s"]

[[links]]
from = "a"
to = "b"
rate = 1000
delay = 500

[[links]]
from = "b"
to = "c"
rate = 1000
delay = 500

[[links]]
from = "c"
to = "s"
rate = 1000
delay = 500

[[links]]
from = "a"
to = "c"
rate = 1000
delay = 500

[[links]]
from = "c"
to = "a"
rate = 1000
delay = 500
"#;

/// Bridges a, b and c, and stations s and t.
const FORK: &str = r#"cycle = 125000
guard = 5000
bridges = ["a", "b", "c"]
stations = ["s", "t"]

[[links]]
from = "c"
to = "s"
rate = 1000
delay = 500

[[links]]
from = "a"
to = "b"
rate = 1000
delay = 500

[[links]]
from = "b"
to = "c"
rate = 1000
delay = 500

[[links]]
from = "b"
to = "t"
rate = 1000
delay = 500
"#;

/// Returns bridges a, b and c in a line to station s: links 0 a>b, 1 b>c and 2 c>s.
pub fn line() -> &'static str {
    LINE
}

/// Returns bridge a and station s: link 0 a>s.
pub fn one_link() -> &'static str {
    ONE_LINK
}

/// Returns the line with links between its ends: links 0 a>b, 1 b>c, 2 c>s, 3 a>c and 4 c>a.
pub fn ring() -> &'static str {
    RING
}

/// Returns bridges a, b and c in a line to station s, and station t at bridge b: links 0 c>s, 1 a>b, 2 b>c and 3 b>t.
pub fn fork() -> &'static str {
    FORK
}
