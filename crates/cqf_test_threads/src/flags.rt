//! Flags that threads raise, and that other threads wait for.
use std::sync::atomic::{AtomicU64, Ordering};
use std::thread;

/// How often a thread reads two flags before it gives up: 200,000,000 reads in all.
const ROUNDS: u32 = 100_000_000;

/// A flag, which is down at first and is never lowered.
#[derive(Drop)]
pub(crate) struct Flag {
    raised: AtomicU64,
}

impl Flag {
    /// Returns a flag that is down.
    pub(crate) fn new() -> Flag {
        Flag {
            raised: AtomicU64::new(0),
        }
    }

    /// Raises it.
    pub(crate) fn raise(&self) {
        self.raised.store(1, Ordering::SeqCst);
    }

    /// Returns whether it is up.
    pub(crate) fn is_up(&self) -> bool {
        self.raised.load(Ordering::SeqCst) == 1
    }
}

/// Reads two flags until both are up, and lets other threads run in between. If they aren't up in the end, it raises `gave_up`: every later
/// wait then gives up at once.
pub(crate) fn wait_for_both(one: &Flag, other: &Flag, gave_up: &Flag) {
    if gave_up.is_up() {
        return;
    }
    for _round in 0..ROUNDS {
        let (one_is_up, other_is_up) = (one.is_up(), other.is_up());
        if one_is_up && other_is_up {
            return;
        }
        thread::yield_now();
    }
    gave_up.raise();
}
