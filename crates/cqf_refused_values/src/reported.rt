//! The result of a trial of a call.
use std::fmt;
use std::fmt::Display;

/// The result of a call, and of the same call repeated if it was refused for lack of memory.
#[derive(Clone, Copy, Debug, PartialEq, Eq)]
pub enum Reported {
    /// It was answered as expected.
    Row,
    /// It was refused for lack of memory, the state was then as promised, and repeated it was answered as expected.
    Memory,
    /// It was answered otherwise.
    OtherAnswer,
    /// It was refused for lack of memory, and the state was then not as promised.
    OtherState,
    /// It was refused for lack of memory, and repeated it was answered otherwise.
    OtherAgain,
}

impl Reported {
    /// Returns the words for it.
    fn words(self) -> &'static str {
        match self {
            Reported::Row => "as it is to be",
            Reported::Memory => "memory, and then as it is to be",
            Reported::OtherAnswer => "another answer",
            Reported::OtherState => "memory, with another state",
            Reported::OtherAgain => "memory, and then another answer",
        }
    }
}

impl Display for Reported {
    fn fmt<W: fmt::Write>(&self, f: &mut fmt::Formatter<W>) -> fmt::Result {
        f.write_str(self.words())
    }
}

/// Returns the result of a call that was answered, by whether the answer was as expected.
pub fn once(is_so: bool) -> Reported {
    if is_so {
        Reported::Row
    } else {
        Reported::OtherAnswer
    }
}

/// Returns the result of a call that was refused for lack of memory, by whether the state was then as promised, and
/// whether it was answered as expected when it was repeated.
pub fn twice(stands: bool, is_so: bool) -> Reported {
    match (stands, is_so) {
        (false, _) => Reported::OtherState,
        (true, false) => Reported::OtherAgain,
        (true, true) => Reported::Memory,
    }
}

/// Makes a call between two marks, and repeats it if its answer is a lack of memory. `stands` is what must hold then,
/// and `is_so` what must hold of the answer to either call: `trial!(alloc, call, Err(_), stands, |answer| is_so)`.
#[macro_export]
macro_rules! trial {
    ($alloc:expr, $call:expr, $wanting:pat, $stands:expr, |$answer:ident| $is_so:expr $(,)?) => {{
        $crate::mark($alloc);
        let first = $call;
        $crate::mark($alloc);
        if matches!(first, $wanting) {
            let stands = $stands;
            let $answer = $call;
            $crate::twice(stands, $is_so)
        } else {
            let $answer = first;
            $crate::once($is_so)
        }
    }};
}

/// Makes, between two marks, an observation that allocates no memory, and checks it.
#[macro_export]
macro_rules! looked_at {
    ($alloc:expr, $is_so:expr $(,)?) => {{
        $crate::mark($alloc);
        let is_so = $is_so;
        $crate::mark($alloc);
        $crate::once(is_so)
    }};
}

/// The names of trials.
#[macro_export]
macro_rules! names_of {
    ($of:ident, $($name:literal => $trial:expr),* $(,)?) => {
        &[$($name),*]
    };
}

/// Makes the trial with the name `of`, if it is among these.
#[macro_export]
macro_rules! reported_by {
    ($of:ident, $($name:literal => $trial:expr),* $(,)?) => {
        match $of {
            $($name => $trial,)*
            _ => None,
        }
    };
}
