//! Trials of runs on one thread and their texts, of what threads share, of worlds, of workers with their pipes, and of
//! runs on threads. Each call is made between two marks, and repeated if it was refused for lack of memory. The
//! expected result is given with each, worked out by hand.
use cqf_refused_values::{Reported, names_of, reported_by};
use std::alloc::Global;
use std::sync::Wait;
use std::thread::Threads;

/// The trials by their names.
macro_rules! trials {
    ($with:ident, $name:ident, $rt:ident, $alloc:ident) => {
        $with! {
            $name,
            "run" => crate::plain::run_reported($alloc),
            "run of many frames" => crate::plain::many_reported($alloc),
            "write_book" => crate::written::book_reported($alloc),
            "write_history" => crate::written::history_reported($alloc),
            "write_starts" => crate::written::starts_reported($alloc),
            "write_links" => crate::written::links_reported($rt, $alloc),
            "write_links of many starts" => crate::written::many_links_reported($rt, $alloc),
            "Pages::new" => crate::pages::new_reported($alloc),
            "Pages::post" => crate::pages::post_reported($alloc),
            "CycleBook::new" => crate::cycle_books::new_reported($rt, $alloc),
            "CycleBook::post" => crate::cycle_books::post_reported($rt, $alloc),
            "CycleBook::post of a page twice" => crate::cycle_books::twice_reported($rt, $alloc),
            "CycleBook::close" => crate::cycle_books::close_reported($rt, $alloc),
            "pipe" => crate::pipes::pipe_reported($rt, $alloc),
            "none: put, take and close of a pipe" => crate::pipes::none_reported($rt, $alloc),
            "none: Pages" => crate::none::pages_reported($alloc),
            "none: CycleBook::whole_cycles and totals" => crate::none::book_reported($rt, $alloc),
            "Desk::new" => crate::desks::new_reported($alloc),
            "Desk::admit" => crate::desks::admit_reported($rt, $alloc),
            "Desk::withdraw" => crate::desks::withdraw_reported($rt, $alloc),
            "Desk::seal" => crate::seats::seal_reported($rt, $alloc),
            "Desk::seal after other calls" => crate::seats::later_reported($rt, $alloc),
            "Desk::close" => crate::seats::close_reported($rt, $alloc),
            "none: Desk::close with seats that followed" => crate::seats::followed_reported($rt, $alloc),
            "Desk::withdraw of a full history" => crate::full::full_reported($rt, $alloc),
            "none: Desk::seal of spent cycles" => crate::full::spent_reported($rt, $alloc),
            "none: Seat::last_table" => crate::seats::seat_reported($rt, $alloc),
            "World::new" => crate::worlds::new_reported($alloc),
            "World::apply of a request" => crate::worlds::request_reported($alloc),
            "World::apply of a withdrawal" => crate::worlds::withdrawal_reported($alloc),
            "World::apply of a Seal" => crate::worlds::seal_reported($alloc),
            "World::apply of Give" => crate::worlds::give_reported($alloc),
            "World::apply of Step" => crate::worlds::step_reported($alloc),
            "World::apply of Take" => crate::worlds::take_reported($alloc),
            "World::apply of Post" => crate::worlds::post_reported($alloc),
            "none: an event that is not enabled, and what a world tells" => crate::worlds::not_enabled_reported($alloc),
            "conduct" => crate::conducting::conduct_reported($rt, $alloc),
            "Agenda::new" => crate::wires::agenda_reported($alloc),
            "lay" => crate::wires::lay_reported($alloc),
            "close_pipes" => crate::wires::shut_reported($alloc),
        }
    };
}

/// The names of the trials.
pub const NAMES: &[&str] = trials!(names_of, name, rt, alloc);

/// Makes the trial with a name. Returns `None` if this crate has no such trial, or what it needs couldn't be prepared.
pub fn reported_of<R: Threads + Wait + Sync>(
    rt: &R,
    alloc: Global,
    name: &str,
) -> Option<Reported> {
    trials!(reported_by, name, rt, alloc)
}
