//! The two ends of a pipe.
ghost use Rattle.std.specs.Prelude.{◌≡◌, ◌+◌, ◌<◌, ◌++◌, [], ◌∷◌, IfErr, IfNone, IfOk, IfSome, OnOk, length};
ghost use Rattle.crossbeam_channel.specs.Claims.{IsSeatAt, view};
ghost use Rattle.crossbeam_channel.specs.Ends.{receives_on};
ghost use Rattle.cqf_worker_loops.specs.PipeEnds.{AreLeft, IsTaker, item_back, items_found};
ghost use Rattle.cqf_worker_loops.specs.PipeRule.{IsTaken, most_items};

use crate::notifiers::{Notifier, Ringer};
use crate::pipe_rule::{
    Bundle, InOrder, PipeLog, PipeReceiver, PipeSender, Puts, Roles, Takes, Token, Total,
};
use cqf_units::Memory;
use crossbeam_channel::{TryRecvError, TrySendError, bounded_with};
use std::alloc::Global;
use std::collections::VecDeque;
use std::marker::Model;
use std::sync::Wait;
use std::thread;

/// The most items that wait in a pipe; items that were put at once count as one.
const CAPACITY: usize = 4;

/// How often the taking end looks for an item before it waits. With more threads than processors the item has usually arrived once other
/// threads have had their turn, and then nobody has to be woken.
const LOOKS: u32 = 32;

/// The end of a pipe at which items are put. Contracts see which pipe it is, and the items that were put, in order.
#[derive(Drop)]
pub struct PipeIn<T: Drop> {
    alloc: Global,
    sender: PipeSender<T>,
    pass: Token<T>,
    puts: u64,
    /// What is rung after each put, and when this end is gone: fields are dropped in order, so this one after the sender.
    notifier: Option<Ringer>,
}

impl<T: Drop> Model for PipeIn<T> {
    ghost use Rattle.std.specs.Prelude.{◌≡◌, ◌≤◌, length};
    ghost use Rattle.crossbeam_channel.specs.Claims.{IsSeatAt};
    ghost use Rattle.crossbeam_channel.specs.Ends.{sends_on};
    ghost use Rattle.cqf_worker_loops.specs.PipeEnds.{End, IsPutter, pipe_of, put_by};
    ghost use Rattle.cqf_worker_loops.specs.PipeRule.{most_items};

    ghost Value = { End T };

    ghost view = { λ s. record { pipe = pipe_of s.pass; items = put_by s.pass } };

    ghost invariant = { λ s. IsSeatAt (sends_on s.sender) s.pass × IsPutter s.pass × (s.puts ≡ length (put_by s.pass)) × (s.puts ≤ most_items) };
}

/// The end of a pipe at which items are taken. Contracts see which pipe it is, and the items that were taken, in order.
#[derive(Drop)]
pub struct PipeOut<T: Drop> {
    receiver: PipeReceiver<T>,
    pass: Token<T>,
    /// Items that were taken from the channel in one bundle with an earlier item, and wait to be returned.
    waiting: VecDeque<T>,
    takes: u64,
    /// The number of bundles taken from the channel since it was last found empty.
    streak: usize,
    /// What is rung when the channel is found empty after that many bundles were taken that it may have been full, as there is room again;
    /// and when this end is gone.
    notifier: Option<Ringer>,
}

impl<T: Drop> Model for PipeOut<T> {
    ghost use Rattle.std.specs.Prelude.{◌≡◌, ◌≤◌, ◌++◌, length};
    ghost use Rattle.crossbeam_channel.specs.Claims.{IsSeatAt};
    ghost use Rattle.crossbeam_channel.specs.Ends.{receives_on};
    ghost use Rattle.cqf_worker_loops.specs.PipeEnds.{End, IsTaker, handed_by, pipe_of, items_taken};
    ghost use Rattle.cqf_worker_loops.specs.PipeRule.{most_items};

    ghost Value = { End T };

    ghost view = { λ s. record { pipe = pipe_of s.pass; items = handed_by s.pass s.waiting.items } };

    ghost invariant = { λ s. IsSeatAt (receives_on s.receiver) s.pass × IsTaker s.pass × (length (items_taken s.pass) ≤ most_items)
        × (items_taken s.pass ≡ handed_by s.pass s.waiting.items ++ s.waiting.items) × (s.takes ≡ length (handed_by s.pass s.waiting.items)) };
}

/// What a look at a pipe finds.
#[derive(Drop)]
pub enum FoundItem<T> {
    /// The item that was put first of those that wait.
    Item(T),
    /// No item waits.
    Nothing,
    /// No item waits, and the other end is gone.
    Gone,
}

/// Why an item wasn't put; the item comes back.
#[derive(Drop)]
pub enum NotPut<T> {
    /// The pipe was full.
    Full(T),
    /// The other end is gone.
    Gone(T),
}

/// Returns the two ends of a pipe, at which nothing was put or taken yet. Four items can wait in it; items that were put at once count as
/// one. Returns `Memory` if an allocation fails.
pub fn pipe<T: Drop + Send>(alloc: Global) -> Result<(PipeIn<T>, PipeOut<T>), Memory>
    ensures pair { IfOk result (λ ends. ends.0.pipe ≡ ends.1.pipe) }
    ensures nothing_put { IfOk result (λ ends. ends.0.items ≡ []) }
    ensures nothing_taken { IfOk result (λ ends. ends.1.items ≡ []) }
{
    let ends = pipe_with(alloc, None, None)?;
    Ok(ends)
}

/// Returns the two ends of a pipe as [`pipe`] does. The thread that takes waits at `taker`, which is rung after each put, and when the
/// putting end is gone. Returns `Memory` if an allocation fails.
pub fn pipe_to<T: Drop + Send>(
    alloc: Global,
    taker: &Notifier,
) -> Result<(PipeIn<T>, PipeOut<T>), Memory>
    ensures pair { IfOk result (λ ends. ends.0.pipe ≡ ends.1.pipe) }
    ensures nothing_put { IfOk result (λ ends. ends.0.items ≡ []) }
    ensures nothing_taken { IfOk result (λ ends. ends.1.items ≡ []) }
{
    let ringer = taker.ringer()?;
    let ends = pipe_with(alloc, Some(ringer), None)?;
    Ok(ends)
}

/// Returns the two ends of a pipe as [`pipe`] does, between two threads that wait at notifiers. `taker` is rung after each put, and when
/// the putting end is gone. `putter` is rung when there is room in the pipe again, and when the taking end is gone. Returns `Memory` if an
/// allocation fails.
pub fn pipe_between<T: Drop + Send>(
    alloc: Global,
    putter: &Notifier,
    taker: &Notifier,
) -> Result<(PipeIn<T>, PipeOut<T>), Memory>
    ensures pair { IfOk result (λ ends. ends.0.pipe ≡ ends.1.pipe) }
    ensures nothing_put { IfOk result (λ ends. ends.0.items ≡ []) }
    ensures nothing_taken { IfOk result (λ ends. ends.1.items ≡ []) }
{
    let onward = taker.ringer()?;
    let back = putter.ringer()?;
    let ends = pipe_with(alloc, Some(onward), Some(back))?;
    Ok(ends)
}

/// Returns the two ends of a pipe, with what is rung after each put (`onward`), and when there is room again (`back`). Returns `Memory` if
/// an allocation fails.
fn pipe_with<T: Drop + Send>(
    alloc: Global,
    onward: Option<Ringer>,
    back: Option<Ringer>,
) -> Result<(PipeIn<T>, PipeOut<T>), Memory>
    ensures pair { IfOk result (λ ends. ends.0.pipe ≡ ends.1.pipe) }
    ensures nothing_put { IfOk result (λ ends. ends.0.items ≡ []) }
    ensures nothing_taken { IfOk result (λ ends. ends.1.items ≡ []) }
{
    let (sender, receiver, mut pass) = bounded_with::<Bundle<T>, PipeLog<T>, InOrder, Global>(
        alloc, CAPACITY,
    )?;
    let other = sender.another::<Roles>(&mut pass);
    let into = PipeIn {
        alloc,
        sender,
        pass,
        puts: 0,
        notifier: onward,
    };
    let out = PipeOut {
        receiver,
        pass: other,
        waiting: VecDeque::new(alloc),
        takes: 0,
        streak: 0,
        notifier: back,
    };
    Ok((into, out))
}

/// Rings a notifier, if there is one.
fn ring(notifier: &Option<Ringer>) {
    if let Some(ringer) = notifier {
        ringer.ring();
    }
}

/// Takes the bundle that was put first of those in the channel. It looks for one repeatedly and lets other threads run in between. Then it
/// waits while there is none, and returns `None` if the other end is gone too. It allocates no memory.
fn receive<T: Drop, R: Wait>(
    rt: &R,
    receiver: &PipeReceiver<T>,
    pass: &mut Token<T>,
) -> Option<Bundle<T>>
    requires channel { IsSeatAt (receives_on receiver.now) pass.old }
    requires taker { IsTaker pass.old }
    ensures channel { IsSeatAt (receives_on receiver.now) pass.new × (pass.new.id ≡ pass.old.id) }
    ensures some { IfSome result (λ bundle. IsTaken (view pass.old) bundle (view pass.new)) }
    ensures none { IfNone result (view pass.new ≡ view pass.old) }
{
    for _ in 0..LOOKS {
        if let Ok(bundle) = receiver.try_recv_as::<Takes, R>(rt, pass) {
            return Some(bundle);
        }
        thread::yield_now();
    }
    match receiver.recv_as::<Takes, R>(rt, pass) {
        Ok(bundle) => Some(bundle),
        Err(_) => None,
    }
}

impl<T: Drop> PipeIn<T> {
    /// Puts an item in the pipe, in which fewer than 1,000,000 items were put before. It waits while the pipe is full. If the other end is
    /// gone, it returns the item, and nothing was put. It allocates no memory.
    pub fn put<R: Wait>(&mut self, rt: &R, item: T) -> Result<(), T>
        requires room { length self.old.items < most_items }
        ensures pipe { self.new.pipe ≡ self.old.pipe }
        ensures ok { OnOk result (self.new.items ≡ self.old.items ++ item ∷ []) }
        ensures err { IfErr result (λ back. self.new.items ≡ self.old.items) }
        ensures back { IfErr result (λ back. back ≡ item) }
    {
        match self.put_with(rt, item, VecDeque::new(self.alloc)) {
            Ok(()) => Ok(()),
            Err((back, _none)) => Err(back),
        }
    }

    /// Puts an item in the pipe and others after it, all at once. With those put before they are at most 1,000,000 items. They wait in the
    /// pipe as one. It waits while the pipe is full. If the other end is gone, it returns all of them, and nothing was put. It allocates no
    /// memory.
    pub fn put_with<R: Wait>(
        &mut self,
        rt: &R,
        first: T,
        following: VecDeque<T>,
    ) -> Result<(), (T, VecDeque<T>)>
        requires room { length self.old.items + length following.items < most_items }
        ensures pipe { self.new.pipe ≡ self.old.pipe }
        ensures ok { OnOk result (self.new.items ≡ self.old.items ++ first ∷ following.items) }
        ensures err { IfErr result (λ back. self.new.items ≡ self.old.items) }
        ensures back { IfErr result (λ back. (back.0 ≡ first) × (back.1.items ≡ following.items)) }
    {
        let count = following.len() as u64 + 1;
        let bundle = Bundle { first, following };
        match self.sender.send_as::<Puts, R>(rt, &mut self.pass, bundle) {
            Ok(()) => {
                self.puts += count;
                ring(&self.notifier);
                Ok(())
            }
            Err(refused) => {
                let Bundle { first, following } = refused.into_inner();
                Err((first, following))
            }
        }
    }

    /// Puts an item in the pipe if there is room. Fewer than 1,000,000 items were put in it before. Else it returns the item, and nothing
    /// was put: `Full` if the pipe was full, `Gone` if the other end is gone. It doesn't block and allocates no memory.
    pub fn try_put<R: Wait>(&mut self, rt: &R, item: T) -> Result<(), NotPut<T>>
        requires room { length self.old.items < most_items }
        ensures pipe { self.new.pipe ≡ self.old.pipe }
        ensures ok { OnOk result (self.new.items ≡ self.old.items ++ item ∷ []) }
        ensures err { IfErr result (λ back. self.new.items ≡ self.old.items) }
        ensures back { IfErr result (λ back. item_back back ≡ item) }
    {
        let bundle = Bundle {
            first: item,
            following: VecDeque::new(self.alloc),
        };
        match self
            .sender
            .try_send_as::<Puts, R>(rt, &mut self.pass, bundle)
        {
            Ok(()) => {
                self.puts += 1;
                ring(&self.notifier);
                Ok(())
            }
            Err(TrySendError::Full(back)) => {
                let Bundle {
                    first,
                    following: _none,
                } = back;
                Err(NotPut::Full(first))
            }
            Err(refused) => {
                let Bundle {
                    first,
                    following: _none,
                } = refused.into_inner();
                Err(NotPut::Gone(first))
            }
        }
    }

    /// Drops both ends, which are of one pipe, and the items that were put and not taken; returns the number of these items. It doesn't
    /// block and allocates no memory.
    pub fn close(self, out: PipeOut<T>) -> u64
        requires pair { self.pipe ≡ out.pipe }
        ensures { AreLeft self.items out.items result }
    {
        let PipeIn {
            alloc: _alloc,
            sender,
            mut pass,
            puts,
            notifier: _onward,
        } = self;
        let PipeOut {
            receiver: _receiver,
            pass: other,
            waiting: _waiting,
            takes,
            streak: _streak,
            notifier: _back,
        } = out;
        sender.absorb::<Roles>(&mut pass, other);
        sender.learn_as::<Total>(&mut pass);
        puts - takes
    }
}

impl<T: Drop> PipeOut<T> {
    /// Takes the item that was put first of those that wait. Returns `Nothing` if none waits, and `Gone` if also the other end is gone. If
    /// `Nothing` is found, and the pipe may have been full since the last time, the notifier of the other end's thread is rung. So a thread
    /// that takes items until none is left leaves nobody waiting for room. It doesn't block and allocates no memory.
    pub fn look<R: Wait>(&mut self, rt: &R) -> FoundItem<T>
        ensures pipe { self.new.pipe ≡ self.old.pipe }
        ensures items { self.new.items ≡ self.old.items ++ items_found result }
    {
        if let Some(item) = self.waiting.pop_front() {
            self.takes += 1;
            return FoundItem::Item(item);
        }
        match self.receiver.try_recv_as::<Takes, R>(rt, &mut self.pass) {
            Ok(bundle) => {
                let Bundle { first, following } = bundle;
                self.waiting = following;
                self.takes += 1;
                self.streak = self.streak.saturating_add(1);
                FoundItem::Item(first)
            }
            Err(TryRecvError::Empty) => {
                self.end_streak();
                FoundItem::Nothing
            }
            Err(TryRecvError::Disconnected) => FoundItem::Gone,
        }
    }

    /// Notes that the channel was found empty. Rings the notifier if the channel may have been full before, as there is room again.
    fn end_streak(&mut self)
        ensures { self.new ≡ self.old }
    {
        if self.streak >= CAPACITY {
            ring(&self.notifier);
        }
        self.streak = 0;
    }

    /// Takes the item that was put first of those that wait. It waits while there is none, and returns `None` if the other end is gone too.
    /// It allocates no memory.
    pub fn take<R: Wait>(&mut self, rt: &R) -> Option<T>
        ensures pipe { self.new.pipe ≡ self.old.pipe }
        ensures some { IfSome result (λ item. self.new.items ≡ self.old.items ++ item ∷ []) }
        ensures none { IfNone result (self.new.items ≡ self.old.items) }
    {
        if let Some(item) = self.waiting.pop_front() {
            self.takes += 1;
            return Some(item);
        }
        let Bundle { first, following } = receive(rt, &self.receiver, &mut self.pass)?;
        self.waiting = following;
        self.takes += 1;
        Some(first)
    }
}
