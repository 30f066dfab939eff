//! A run without gates, by exact instants: the verdict on each offer at its edge bridge, the basis from which starts are computed, the
//! frames and octets of each link, the drops of edge bridges, and the starts of background frames.
//!
//! - **Offers.** [`cover`] judges offers in order. It uses only the streams that were ever granted: the row of the offer's name that is in
//!   force in the offer's cycle, and the octets that earlier offers have used of that row. An [`EdgeVerdict`] is the result for one offer.
//! - **Starts.** `lay_run` makes the basis of a pass from a domain, the rows that a history ever granted, and the judged offers. For this,
//!   `lay_streams` lays the trees of the streams that are live in the run, one after the other, and `enter_offers` lists each offer with the
//!   position of its first hops. [`pass_of_history`] makes a pass from the basis. The pass returns the starts cycle by cycle and allocates no
//!   memory. [`starts_of_history`] collects them in one list.
//! - **Sums by link**, from only the offers. [`columns_of`] returns how many frames each link starts in the cycles of a run, and how many
//!   octets in each cycle. A covered offer leaves by each link of its stream's tree, as many cycles after its own as the link's hop number.
//! - **Background frames.** [`background_of_history`] returns the background list of a run's book. For each link with background frames, a
//!   port is given these frames, and the link's streams' frames, each arriving at the instant at which it starts. The background frames that
//!   the port then starts are recorded. No stream gate is used, and the port of a link without background frames is given nothing.
//!   [`keep_background`] writes the same starts on the traces of a run's links after the run. Both use the law
//!   [`port_starts_the_background`]: if the streams' frames arrive only when they start, a port starts the same background frames at the same
//!   instants.
//! - **The book.** [`drops_of`] returns the drops of a run's cycles as a book has them, by cycle, bridge and frame. [`book_of_parts`] makes
//!   the book from starts, background frames and drops, and `book_by_instants` makes the book of a run without background frames.
//!
//! An example: a stream `x` reserves 1,500 octets on the links 2 and 5, begins at bridge 0 and is granted from cycle 0 on. The run has
//! three cycles:
//!
//! ```text
//! frame 1, x at bridge 0, 1,000 octets     Covered(0)
//! frame 2, x at bridge 0, 600 octets       Dropped(Octets), in the same cycle
//! frame 3, x at bridge 0, 500 octets       Covered(0), in the same cycle
//! frame 4, y at bridge 0, 64 octets        Dropped(Unknown)
//!     columns: link 2 has 2 frames, octets 0 1500 0; link 5 has 2, octets 0 0 1500; each other link none
//!     drops: cycle 0, bridge 0, frame 2, Octets; cycle 0, bridge 0, frame 4, Unknown
//! ```
//!
//! Another example: a link at 1,000 Mb/s, cycles of 125,000 ns and a guard band of 5,000 ns. A stream's frame of 1,000 octets starts at
//! 125,000; with its gap it takes until 133,160:
//!
//! ```text
//! starts: frame 1 at 125,000, 1,000 octets        the port is given: class 6 at 125,000, 1,000 octets
//! background: frame 1 at 126,000, class 5, 64                         class 5 at 126,000, 64 octets
//!                                                 it starts the latter at 133,160, in cycle 1
//! ```
#![tactic(auto)]

mod background;
mod begun;
mod counted;
mod dropping;
mod entering;
mod feeding;
mod frames;
mod judged;
mod law;
mod laying;
mod layout;
mod parts;
mod passes;
mod reporting;
mod taping;

pub use background::background_of_history;
pub use counted::columns_of;
pub use dropping::drops_of;
pub use judged::{EdgeVerdict, cover};
pub use law::port_starts_the_background;
pub use parts::book_of_parts;
pub use passes::{pass_of_history, starts_of_history};
pub use taping::keep_background;
