//! The result of a run on threads.

use cqf_desk::History;
use cqf_model::Book;
use cqf_trace::Traces;

/// The result of a run on threads: the history of all calls, and the book of every transmission and drop.
#[derive(Debug, Drop)]
pub struct Account {
    pub history: History,
    pub book: Book,
}

/// The same with the book's traces, as the bridges kept them: for each link what it sent, and for each bridge what it dropped.
#[derive(Debug, Drop)]
pub struct TracedAccount {
    pub history: History,
    pub traces: Traces,
}
