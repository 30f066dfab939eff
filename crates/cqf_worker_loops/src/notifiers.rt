//! A notifier: one thread waits at it until another thread rings it.

use cqf_units::Memory;
use crossbeam_utils::sync::{Parker, Unparker};
use std::alloc::Global;
use std::marker::Model;
use std::sync::Wait;

/// The notifier of a thread. If it is rung while nobody waits, the next wait returns at once. Several such rings count as one. So a thread
/// misses nothing if it first looks at everything that may have arrived and then waits.
#[derive(Drop)]
pub struct Notifier {
    parker: Parker,
}

/// A handle by which another thread rings a notifier. It rings once more when it is dropped.
pub struct Ringer {
    unparker: Unparker,
}

/// Contracts see nothing of a notifier: that a thread wakes up is not part of what is proved.
impl Model for Notifier {
    ghost use Rattle.std.specs.Prelude.{⊤};

    ghost Value = { ⊤ };

    ghost view = { λ _. tt };
}

impl Model for Ringer {
    ghost use Rattle.std.specs.Prelude.{⊤};

    ghost Value = { ⊤ };

    ghost view = { λ _. tt };
}

impl Notifier {
    /// Returns a notifier that nobody has rung. Returns `Memory` if an allocation fails.
    pub fn new(alloc: Global) -> Result<Notifier, Memory> {
        Ok(Notifier {
            parker: Parker::new(alloc)?,
        })
    }

    /// Returns a handle by which another thread rings this notifier. Returns `Memory` if an allocation fails.
    pub fn ringer(&self) -> Result<Ringer, Memory> {
        Ok(Ringer {
            unparker: self.parker.unparker().clone()?,
        })
    }

    /// Waits until the notifier is rung. Returns at once if it was rung since the last wait. It allocates no memory.
    pub fn wait<R: Wait>(&self, rt: &R) {
        self.parker.park(rt);
    }
}

impl Drop for Ringer {
    fn drop(self) {
        let Ringer { unparker } = self;
        unparker.unpark();
    }
}

impl Ringer {
    /// Rings the notifier. It doesn't block and allocates no memory.
    pub fn ring(&self) {
        self.unparker.unpark();
    }
}
