//! The desk.
ghost use Rattle.std.specs.Arc.{arc_value};
ghost use Rattle.std.specs.Prelude.{ℕ, ◌≡◌, ◌↔◌, IfErr, IfOk, IsErrOf};
ghost use Rattle.cqf_model.specs.History.{Admits, Withdraws};
ghost use Rattle.cqf_admission.specs.Asking.{asked_of, asked_paced};
ghost use Rattle.cqf_desk.specs.Closing.{AreItsSeats, IsCloseFault, IsClosed, IsOneOrCount};
ghost use Rattle.cqf_desk.specs.Desk.{IsAnsweredSomewhere, IsSealedSomewhere, Keeps, KeepsSeal, fresh_seats};

use crate::closing::{are_its_seats, settle};
use crate::faults::CloseFault;
use crate::history::History;
use crate::seats::{Seat, unasked};
use cqf_admission::{Admission, Receipt, Refused, SealFault, SharedRequest};
use cqf_topology::Request;
use cqf_units::Memory;
use std::alloc::Global;
use std::marker::Model;
use std::sync::{Arc, Mutex, Wait};

/// An admission protected by a lock. Threads make calls to it, each with a seat of its own. A seat that seals follows the history, so the desk is
/// usually closed without looking at that seat's tables.
#[derive(Drop)]
pub struct Desk {
    alloc: Global,
    /// The admission as it was given.
    opening: Admission,
    seats: u16,
    admission: Mutex<Admission>,
}

impl Model for Desk {
    ghost use Rattle.cqf_desk.specs.Desk.{Counter};

    ghost Value = { Counter };

    ghost view = { λ d. record { opening = d.opening; seats = d.seats } };
}

impl Desk {
    /// Returns a desk for an admission, and `seats` seats, numbered from 0. The present history of the admission is the opening part.
    /// Returns `Memory` if an allocation fails; the admission is dropped then. Doesn't wait.
    pub fn new(alloc: Global, admission: Admission, seats: u16) -> Result<(Desk, Vec<Seat>), Memory>
        ensures desk { IfOk result (λ made. made.0 ≡ record { opening = admission; seats = seats }) }
        ensures seats { IfOk result (λ made. made.1.items ≡ fresh_seats seats) }
    {
        let numbered = new_seats(alloc, seats)?;
        let desk = Desk {
            alloc,
            opening: admission.try_copy(alloc)?,
            seats,
            admission: Mutex::new(admission),
        };
        Ok((desk, numbered))
    }

    /// Requests a stream. The answer is that of [`Admission::admit`] after all earlier calls, and the seat keeps the call with the same
    /// answer. The contract says this of some legal history; [`Desk::close`] returns it. Waits only for the lock.
    ///
    /// # Errors
    /// As for [`Admission::admit`]. With `HistoryFull` and `Memory` neither the history nor the seat changes. `Memory` is returned only if
    /// `HistoryFull` isn't due.
    pub fn admit<R: Wait>(
        &self,
        rt: &R,
        seat: &mut Seat,
        request: &Request,
    ) -> Result<Receipt, Refused>
        ensures keeps { Keeps seat.old seat.new (Admits (asked_of request.now)) result }
        ensures answered { IsAnsweredSomewhere seat.old.number (Admits (asked_of request.now)) result }
    {
        let Ok(asked) = request.try_copy(self.alloc) else {
            return unasked(&self.admission.lock(rt));
        };
        seat.admit(&mut self.admission.lock(rt), asked, request)
    }

    /// Requests a stream that is offered in some cycles, as [`Desk::admit`] does, by [`Admission::admit_shared`]. The history and the seat
    /// share the request with the caller, and copy nothing.
    pub fn admit_shared<R: Wait>(
        &self,
        rt: &R,
        seat: &mut Seat,
        request: &Arc<SharedRequest>,
    ) -> Result<Receipt, Refused>
        ensures keeps { Keeps seat.old seat.new (Admits (asked_paced (arc_value request.now))) result }
        ensures answered { IsAnsweredSomewhere seat.old.number (Admits (asked_paced (arc_value request.now))) result }
    {
        let Ok(asked) = Arc::try_clone(request) else {
            return unasked(&self.admission.lock(rt));
        };
        seat.admit_shared(&mut self.admission.lock(rt), asked, request)
    }

    /// Withdraws the stream with a name, by [`Admission::withdraw`], in the same way as [`Desk::admit`] requests one.
    pub fn withdraw<R: Wait>(&self, rt: &R, seat: &mut Seat, name: &str) -> Result<Receipt, Refused>
        ensures keeps { Keeps seat.old seat.new (Withdraws name.now) result }
        ensures answered { IsAnsweredSomewhere seat.old.number (Withdraws name.now) result }
    {
        let Ok(asked) = String::from_str(self.alloc, name) else {
            return unasked(&self.admission.lock(rt));
        };
        seat.withdraw(&mut self.admission.lock(rt), asked, name)
    }

    /// Closes the next cycle to changes, by [`Admission::seal`]. The seat keeps the Seal and a table of that cycle. If the desk closes, it
    /// is the table that the Seal closed. The seat follows the history up to there, unless a call is answered otherwise; then its tables
    /// are compared when the desk is closed. Waits only for the lock.
    ///
    /// # Errors
    /// As for [`Admission::seal`]. With `CyclesSpent` and `Memory` neither the history nor the seat changes. `Memory` is returned if any
    /// allocation fails, including those of the follower, and only if `CyclesSpent` isn't due.
    pub fn seal<R: Wait>(&self, rt: &R, seat: &mut Seat) -> Result<(), SealFault>
        ensures keeps { KeepsSeal seat.old seat.new result }
        ensures sealed { IsSealedSomewhere seat.old seat.new result }
    {
        seat.seal(self.alloc, &self.opening, &mut self.admission.lock(rt))
    }

    /// Returns the history of all calls, given all seats. It is legal and begins with the opening part, followed by exactly the calls of
    /// the desk's seats. Each seat has exactly its own calls, in its order, with the replies that it got, and the tables of its Seals.
    /// Doesn't wait.
    ///
    /// # Errors
    /// `SeatMissing` if the seats aren't the desk's, one for each number. `SeatsDisagree` with the least number of a seat, such as one of
    /// another desk, whose calls or tables differ from those of the history; or with the number of seats, if the history isn't the opening
    /// part followed by calls of the desk's seats. `Memory` if an allocation fails, even if a seat already disagreed. The desk and the
    /// seats are dropped in each case.
    pub fn close(self, seats: Vec<Seat>) -> Result<History, CloseFault>
        ensures missing { IsErrOf result CloseFault.SeatMissing ↔ (AreItsSeats self.seats seats.items → ⊥) }
        ensures named { (number : ℕ) → IsErrOf result (CloseFault.SeatsDisagree number) → IsOneOrCount self.seats seats.items number }
        ensures closed { IfOk result (λ history. IsClosed self seats.items history) }
        ensures fault { IfErr result (λ fault. IsCloseFault self seats.items fault) }
    {
        if !are_its_seats(self.seats, seats.as_slice()) {
            return Err(CloseFault::SeatMissing);
        }
        self.settled(seats.as_slice())
    }

    /// Returns the history of a desk like [`Desk::close`], given the seats of the desk.
    fn settled(self, seats: &[Seat]) -> Result<History, CloseFault>
        requires { AreItsSeats self.seats seats.now }
        ensures missing { IsErrOf result CloseFault.SeatMissing → ⊥ }
        ensures named { (number : ℕ) → IsErrOf result (CloseFault.SeatsDisagree number) → IsOneOrCount self.seats seats.now number }
        ensures closed { IfOk result (λ history. IsClosed self seats.now history) }
        ensures fault { IfErr result (λ fault. IsCloseFault self seats.now fault) }
    {
        let held = self.admission.into_inner();
        settle(self.alloc, &self.opening, self.seats, held, seats)
    }
}

/// Returns seats before any call, or `Memory` if an allocation fails.
fn new_seats(alloc: Global, seats: u16) -> Result<Vec<Seat>, Memory>
    ensures { IfOk result (λ numbered. numbered.items ≡ fresh_seats seats) }
{
    let mut numbered = Vec::with_capacity(alloc, usize::from(seats))?;
    for number in 0..seats {
        numbered.push(Seat::new(alloc, number))?;
    }
    Ok(numbered)
}
