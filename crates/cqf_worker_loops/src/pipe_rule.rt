//! The rule of a pipe: the items put are the items taken followed by those that the channel holds.
use crossbeam_channel::protocol::{Join, Lesson, Outcome, Protocol, Split};
use crossbeam_channel::{Pass, RuledReceiver, RuledSender};
use std::collections::{LinkedList, VecDeque};

/// Items that were put at once: the first one, and the others after it.
#[derive(Drop)]
pub(crate) struct Bundle<T> {
    pub first: T,
    pub following: VecDeque<T>,
}

/// What a thread knows of a pipe by its pass: whether it may put and take, and what it has put and taken. No value of this type is ever
/// made.
pub(crate) struct PipeLog<T> {
    pub puts: bool,
    pub takes: bool,
    pub put: LinkedList<T>,
    pub taken: LinkedList<T>,
}

/// The rule, and the view of the first pass, which may both put and take.
pub(crate) struct InOrder;

impl<T> Protocol<Bundle<T>, PipeLog<T>> for InOrder {
    ghost use Rattle.std.specs.Prelude.{true, []};
    ghost use Rattle.cqf_worker_loops.specs.PipeRule.{Piped, log};

    ghost holds = { Piped };

    ghost first = { log true true [] [] };
}

/// Splits the pass into one that may put and one that may take, and joins them again.
pub(crate) struct Roles;

impl<T> Split<PipeLog<T>> for Roles {
    ghost use Rattle.std.specs.Prelude.{true, false, []};
    ghost use Rattle.cqf_worker_loops.specs.PipeRule.{log};

    ghost left = { λ v. log true false v.put [] };

    ghost right = { λ v. log false true [] v.taken };
}

impl<T> Join<PipeLog<T>> for Roles {
    ghost use Rattle.std.specs.Prelude.{true, false, []};
    ghost use Rattle.cqf_worker_loops.specs.PipeRule.{log};

    ghost both = { λ v w. log true true v.put w.taken };

    ghost spent = { log false false [] [] };
}

/// Puts items, as one bundle.
pub(crate) struct Puts;

impl<T> Outcome<Bundle<T>, PipeLog<T>> for Puts {
    ghost use Rattle.cqf_worker_loops.specs.PipeRule.{IsPut};

    ghost then = { IsPut };
}

impl<T> Lesson<Bundle<T>, PipeLog<T>> for Puts {
    ghost fact = { λ v held. Unit {0} };
}

/// Takes a bundle.
pub(crate) struct Takes;

impl<T> Outcome<Bundle<T>, PipeLog<T>> for Takes {
    ghost use Rattle.cqf_worker_loops.specs.PipeRule.{IsTaken};

    ghost then = { IsTaken };
}

impl<T> Lesson<Bundle<T>, PipeLog<T>> for Takes {
    ghost fact = { λ v held. Unit {0} };
}

/// What the pass that may both put and take learns about the content of the channel.
pub(crate) struct Total;

impl<T> Lesson<Bundle<T>, PipeLog<T>> for Total {
    ghost use Rattle.cqf_worker_loops.specs.PipeRule.{IsRest};

    ghost fact = { IsRest };
}

/// The channel's two ends, and a thread's pass.
pub(crate) type PipeSender<T> = RuledSender<Bundle<T>, PipeLog<T>, InOrder>;

pub(crate) type PipeReceiver<T> = RuledReceiver<Bundle<T>, PipeLog<T>, InOrder>;

pub(crate) type Token<T> = Pass<Bundle<T>, PipeLog<T>>;
