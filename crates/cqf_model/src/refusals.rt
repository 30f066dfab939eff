//! Refusals of an admission as text: the refusal's name, followed by its values, each after a space.
ghost use Rattle.std.specs.Prelude.{Some};
ghost use Rattle.cqf_model.specs.Refusals.{text_of_refusal};

use crate::history::Refused;
use std::fmt;

impl fmt::Display for Refused {
    ghost output = { λ refused. Some (text_of_refusal refused) };

    fn fmt<W: fmt::Write>(&self, f: &mut fmt::Formatter<W>) -> fmt::Result {
        match self {
            Refused::BadName => f.write_str("BadName"),
            Refused::BadOctets => f.write_str("BadOctets"),
            Refused::BadPace => f.write_str("BadPace"),
            Refused::UnknownNode(index) => write!(f, "UnknownNode {index}"),
            Refused::BrokenPath(index) => write!(f, "BrokenPath {index}"),
            Refused::LoopingPath(index) => write!(f, "LoopingPath {index}"),
            Refused::NotATree(branch) => write!(f, "NotATree {branch}"),
            Refused::TooManyHops => f.write_str("TooManyHops"),
            Refused::NameHeld => f.write_str("NameHeld"),
            Refused::TooManyStreams => f.write_str("TooManyStreams"),
            Refused::BudgetShort { link, left } => write!(f, "BudgetShort {link} {left}"),
            Refused::NotHeld => f.write_str("NotHeld"),
            Refused::AlreadyWithdrawn => f.write_str("AlreadyWithdrawn"),
            Refused::HistoryFull => f.write_str("HistoryFull"),
            Refused::Memory => f.write_str("Memory"),
        }
    }
}
