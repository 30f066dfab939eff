//! Streams admitted and withdrawn.
use cqf_admission::{Admission, Call, Entry, Receipt, Refused, Reply, SealFault, Table};
use cqf_test_fixtures::{Asked, fork, line, one_link, request, ring};
use cqf_topology::Domain;
use cqf_units::{Cycle, Name};
use std::alloc::Global;

/// The answer to a call: the number of its stream and the first cycle for which it holds, or why it is refused.
type Answer = Result<(u32, u32), Refused>;

/// A call or a query to an admission, and its result.
enum Step {
    Admit(Asked, Answer),
    Withdraw(&'static str, Answer),
    /// A name that isn't held is withdrawn this many times, and refused for that each time.
    WithdrawOften(u32),
    /// This many cycles are closed, in turn.
    Seal(u32),
    /// No further cycle can be closed.
    SealFails(SealFault),
    /// The cycle of this number is closed, and these are the results of queries to its table.
    Table(u32, &'static [Look]),
    /// What is held on each link.
    Held(&'static [u32]),
    /// How many entries the history has, the last reply, and the next cycle to close.
    History(usize, Reply, u32),
    /// The history is filled: with withdrawals of a name that isn't held, and then with Seals.
    Full,
}

/// A query to a table.
enum Look {
    /// How many rows it has.
    Rows(usize),
    /// Whether the stream of this name is live in this cycle.
    Named(&'static str, u32, bool),
    /// Whether the stream of this number is live in this cycle.
    Numbered(u32, u32, bool),
}

/// The steps of an admission that holds nothing, and then the steps of it and of a copy of it, one after the other.
type Case = (&'static [Step], &'static [Step]);

/// The path of the line.
const WHOLE: &[&[&str]] = &[&["a", "b", "c", "s"]];

/// Streams over the line.
const OVER_LINE: &[Case] = &[
    // a link takes as many streams as its budget has room for; a table has the streams that were accepted
    (
        &[
            Step::Admit(("n0", 1500, WHOLE), Ok((0, 0))),
            Step::Admit(("n1", 1500, WHOLE), Ok((1, 0))),
            Step::Admit(("n2", 1500, WHOLE), Ok((2, 0))),
            Step::Admit(("n3", 1500, WHOLE), Ok((3, 0))),
            Step::Admit(("n4", 1500, WHOLE), Ok((4, 0))),
            Step::Admit(("n5", 1500, WHOLE), Ok((5, 0))),
            Step::Admit(("n6", 1500, WHOLE), Ok((6, 0))),
        ],
        &[
            Step::Table(0, &[Look::Rows(7)]),
            Step::History(8, Reply::Sealed, 1),
            Step::Admit(("n7", 1500, WHOLE), Err(SHORT)),
            Step::Admit(("n7", 1000, WHOLE), Err(SHORT)),
            Step::Admit(("n7", 980, WHOLE), Ok((7, 1))),
            Step::Held(&[15_000, 15_000, 15_000]),
        ],
    ),
    // a withdrawn stream is held until its last frame has left
    (
        FULL,
        &[
            Step::History(6, Reply::Sealed, 5),
            Step::Withdraw("old", Ok((0, 5))),
            Step::Seal(2),
            Step::Admit(("new", 11_440, WHOLE), Err(FULL_UP)),
            Step::Seal(1),
            Step::Admit(("new", 11_440, WHOLE), Ok((1, 8))),
        ],
    ),
    // and stays in the tables
    (
        FULL,
        &[
            Step::Withdraw("old", Ok((0, 5))),
            Step::Seal(1),
            Step::Table(
                6,
                &[
                    Look::Named("old", 6, false),
                    Look::Numbered(0, 4, true),
                    Look::Numbered(0, 5, false),
                ],
            ),
        ],
    ),
    // a request of bad form is refused, and so is one whose branches aren't paths, at the right position
    (
        &[],
        &[
            Step::Admit(("X!", 10, WHOLE), Err(Refused::BadName)),
            Step::Admit(("x", 63, WHOLE), Err(Refused::BadOctets)),
            Step::Admit(("x", 1_000_001, WHOLE), Err(Refused::BadOctets)),
            Step::Admit(("x", 1_000_000, WHOLE), Err(TOO_MUCH)),
            Step::Admit(("x", 64, &[&["a", "q", "s"]]), Err(Refused::UnknownNode(1))),
            Step::Admit(("x", 64, &[&["a", "c", "s"]]), Err(Refused::BrokenPath(1))),
            Step::Admit(("x", 64, &[&["a", "b"]]), Err(Refused::BrokenPath(1))),
            Step::Admit(("x", 64, &[&[]]), Err(Refused::BrokenPath(0))),
        ],
    ),
    // a name is held as long as its stream
    (
        &[Step::Admit(("x", 64, WHOLE), Ok((0, 0)))],
        &[
            Step::Withdraw("x", Ok((0, 0))),
            Step::Admit(("x", 64, WHOLE), Err(Refused::NameHeld)),
            Step::Withdraw("x", Err(Refused::AlreadyWithdrawn)),
            Step::Withdraw("q", Err(Refused::NotHeld)),
            Step::History(5, Reply::Refused(Refused::NotHeld), 0),
        ],
    ),
];

/// A history takes 100,000 calls, and as many Seals. Further calls aren't entered: a withdrawal, and a request, whether or not it has the
/// form of one.
const OVER_THE_LIMIT: &[Case] = &[(
    &[
        Step::WithdrawOften(100_000),
        Step::History(100_000, Reply::Refused(Refused::NotHeld), 0),
        Step::Withdraw("q", Err(Refused::HistoryFull)),
        Step::Admit(("x", 64, WHOLE), Err(Refused::HistoryFull)),
        Step::Admit(("X!", 10, &[&[]]), Err(Refused::HistoryFull)),
        Step::History(100_000, Reply::Refused(Refused::NotHeld), 0),
        Step::Seal(100_000),
        Step::SealFails(SealFault::CyclesSpent),
        Step::Withdraw("q", Err(Refused::HistoryFull)),
        Step::SealFails(SealFault::CyclesSpent),
        Step::History(200_000, Reply::Sealed, 100_000),
        Step::Full,
    ],
    &[],
)];

/// Seven streams leave room for one of 980 octets.
const SHORT: Refused = Refused::BudgetShort {
    link: 0,
    left: 1280,
};

/// 11,440 octets leave none, and 60,000 are more than a link has.
const FULL_UP: Refused = Refused::BudgetShort { link: 0, left: 0 };

const TOO_MUCH: Refused = Refused::BudgetShort {
    link: 0,
    left: 15_000,
};

/// The line is filled by one stream, and five cycles are closed.
const FULL: &[Step] = &[
    Step::Admit(("old", 11_440, WHOLE), Ok((0, 0))),
    Step::Seal(5),
];

/// The line, whose gates leave 22 octets of each frame out.
const UNCOUNTED: &str = "cycle = 125000
guard = 5000
gate-overhead = 22
bridges = [\"a\", \"b\", \"c\"]
stations = [\"s\"]
links = [
    { from = \"a\", to = \"b\", rate = 1000, delay = 500 },
    { from = \"b\", to = \"c\", rate = 1000, delay = 500 },
    { from = \"c\", to = \"s\", rate = 1000, delay = 500 },
]
";

/// Streams over it. A frame of 64 octets has 42 reserved ones, and costs 84. So 1,500 octets cost 1,500 + 35 · 42 and leave 12,030, and 6,024
/// octets cost 6,024 + 143 · 42, which is all of them. An octet more costs an octet more.
const OVER_UNCOUNTED: &[Case] = &[(
    &[Step::Admit(("x", 1500, WHOLE), Ok((0, 0)))],
    &[
        Step::Held(&[2970; 3]),
        Step::Admit(("y", 6025, WHOLE), Err(HALF_LEFT)),
        Step::Admit(("y", 6024, WHOLE), Ok((1, 0))),
        Step::Held(&[15_000; 3]),
        Step::Admit(("z", 64, WHOLE), Err(FULL_UP)),
    ],
)];

const HALF_LEFT: Refused = Refused::BudgetShort {
    link: 0,
    left: 12_030,
};

/// Streams over the ring, none a tree.
const OVER_RING: &[Case] = &[(
    &[],
    &[
        // a path that returns to a bridge
        Step::Admit(
            ("x", 64, &[&["a", "b", "c", "a", "c", "s"]]),
            Err(Refused::LoopingPath(3)),
        ),
        // a branch that joins another, is there twice, or begins elsewhere, and one with an unknown node
        Step::Admit(
            ("x", 1500, &[&["a", "b", "c", "s"], &["a", "c", "s"]]),
            Err(Refused::NotATree(1)),
        ),
        Step::Admit(
            ("x", 1500, &[&["a", "c", "s"], &["a", "c", "s"]]),
            Err(Refused::NotATree(1)),
        ),
        Step::Admit(
            ("x", 1500, &[&["a", "c", "s"], &["b", "c", "s"]]),
            Err(Refused::NotATree(1)),
        ),
        Step::Admit(
            ("x", 1500, &[&["a", "c", "s"], &["a", "q", "s"]]),
            Err(Refused::UnknownNode(4)),
        ),
    ],
)];

/// A stream over the fork: a shared link is charged once, until the deepest branch is empty. Then one on its last link alone.
const OVER_FORK: &[Case] = &[(
    &[
        Step::Admit(
            ("x", 1500, &[&["a", "b", "c", "s"], &["a", "b", "t"]]),
            Ok((0, 0)),
        ),
        Step::Held(&[1960; 4]),
        Step::Seal(5),
        Step::Withdraw("x", Ok((0, 5))),
        Step::Seal(2),
    ],
    &[
        Step::Held(&[1960; 4]),
        Step::Seal(1),
        Step::Held(&[0; 4]),
        Step::Admit(("y", 64, &[&["b", "t"]]), Ok((1, 8))),
        Step::Held(&[0, 0, 0, 84]),
    ],
)];

/// 17 bridges in a row, from 0 to 16, to station s.
const CHAIN: &str =
    "cycle = 125000\nguard = 5000\nstations = [\"s\"]\nbridges = [\"0\", \"1\", \"2\", \"3\", \"4\", \"5\", \"6\", \"7\", \"8\", \"9\", \"10\", \"11\", \"12\", \"13\", \"14\", \"15\", \"16\"]\nlinks = [\
    { from = \"0\", to = \"1\", rate = 1000, delay = 500 }, \
    { from = \"1\", to = \"2\", rate = 1000, delay = 500 }, \
    { from = \"2\", to = \"3\", rate = 1000, delay = 500 }, \
    { from = \"3\", to = \"4\", rate = 1000, delay = 500 }, \
    { from = \"4\", to = \"5\", rate = 1000, delay = 500 }, \
    { from = \"5\", to = \"6\", rate = 1000, delay = 500 }, \
    { from = \"6\", to = \"7\", rate = 1000, delay = 500 }, \
    { from = \"7\", to = \"8\", rate = 1000, delay = 500 }, \
    { from = \"8\", to = \"9\", rate = 1000, delay = 500 }, \
    { from = \"9\", to = \"10\", rate = 1000, delay = 500 }, \
    { from = \"10\", to = \"11\", rate = 1000, delay = 500 }, \
    { from = \"11\", to = \"12\", rate = 1000, delay = 500 }, \
    { from = \"12\", to = \"13\", rate = 1000, delay = 500 }, \
    { from = \"13\", to = \"14\", rate = 1000, delay = 500 }, \
    { from = \"14\", to = \"15\", rate = 1000, delay = 500 }, \
    { from = \"15\", to = \"16\", rate = 1000, delay = 500 }, \
    { from = \"16\", to = \"s\", rate = 1000, delay = 500 }]\n";

/// Paths over the row: of 17 bridges, and of 16.
const OVER_CHAIN: &[Case] = &[(
    &[],
    &[
        Step::Admit(
            (
                "x",
                64,
                &[&[
                    "0", "1", "2", "3", "4", "5", "6", "7", "8", "9", "10", "11", "12", "13", "14",
                    "15", "16", "s",
                ]],
            ),
            Err(Refused::BrokenPath(17)),
        ),
        Step::Admit(
            (
                "x",
                64,
                &[&[
                    "1", "2", "3", "4", "5", "6", "7", "8", "9", "10", "11", "12", "13", "14",
                    "15", "16", "s",
                ]],
            ),
            Ok((0, 0)),
        ),
    ],
)];

/// Returns whether a call gets this answer.
fn is_answer(answer: Result<Receipt, Refused>, wanted: Answer) -> bool {
    match answer {
        Ok(receipt) => wanted == Ok((receipt.no, receipt.effect.0)),
        Err(refused) => wanted == Err(refused),
    }
}

/// Returns whether a request gets this answer.
fn admits(alloc: Global, asked: &mut Admission, stream: &Asked, wanted: Answer) -> bool {
    match request(alloc, stream) {
        Ok(request) => is_answer(asked.admit(0, &request), wanted),
        Err(_) => false,
    }
}

/// Withdraws a name that isn't held, `count` times.
fn withdraw_often(asked: &mut Admission, count: u32) -> bool {
    for _time in 0..count {
        if !is_answer(asked.withdraw(0, "q"), Err(Refused::NotHeld)) {
            return false;
        }
    }
    true
}

/// Closes the next cycle. Returns whether the table is that cycle's.
fn seals_next(asked: &mut Admission) -> bool {
    let next = asked.next_cycle();
    match asked.seal(0) {
        Ok(table) => table.cycle() == next,
        Err(_) => false,
    }
}

/// Closes `count` cycles. Returns whether each table is its cycle's.
fn seal_often(asked: &mut Admission, count: u32) -> bool {
    for _time in 0..count {
        if !seals_next(asked) {
            return false;
        }
    }
    true
}

/// Returns whether the stream of a name is in the table, and is live or not in a cycle.
fn is_named(table: &Table, name: &str, cycle: u32, live: bool) -> bool {
    match Name::new(name.as_bytes()) {
        Some(name) => match table.row_named(&name) {
            Some(row) => row.live(Cycle(cycle)) == live,
            None => false,
        },
        None => false,
    }
}

/// Returns whether a query to a table has this result.
fn is_seen(table: &Table, look: &Look) -> bool {
    match *look {
        Look::Rows(count) => table.rows().len() == count,
        Look::Named(name, cycle, live) => is_named(table, name, cycle, live),
        Look::Numbered(no, cycle, live) => match table.row_of(no) {
            Some(row) => row.live(Cycle(cycle)) == live,
            None => false,
        },
    }
}

/// Returns whether a table is of this cycle, and all queries have these results.
fn is_table(table: &Table, cycle: u32, looks: &[Look]) -> bool {
    table.cycle() == Cycle(cycle) && looks.iter().all(|look| is_seen(table, look))
}

/// Returns whether a copy of a table is such.
fn is_copied(alloc: Global, table: &Table, cycle: u32, looks: &[Look]) -> bool {
    match table.try_copy(alloc) {
        Ok(copy) => is_table(&copy, cycle, looks),
        Err(_) => false,
    }
}

/// Returns whether a cycle is closed with such a table.
fn seals(alloc: Global, asked: &mut Admission, cycle: u32, looks: &[Look]) -> bool {
    match asked.seal(9) {
        Ok(table) => is_table(&table, cycle, looks) && is_copied(alloc, &table, cycle, looks),
        Err(_) => false,
    }
}

/// Returns whether a cycle isn't closed, for this cause.
fn seal_fails(asked: &mut Admission, fault: SealFault) -> bool {
    match asked.seal(0) {
        Ok(_) => false,
        Err(cause) => cause == fault,
    }
}

/// Returns whether this is held on the links.
fn holds(asked: &Admission, costs: &[u32]) -> bool {
    let links = asked.domain().links();
    if usize::from(links) != costs.len() {
        return false;
    }
    for link in 0..links {
        if asked.held_on(link).0 != costs[usize::from(link)] {
            return false;
        }
    }
    true
}

/// Returns whether the history has this many entries, and the last one has this reply and is a Seal if and only if the reply is that of
/// one.
fn ends_in(asked: &Admission, entries: usize, reply: Reply) -> bool {
    match asked.history().last() {
        Some(entry) => {
            asked.history().len() == entries
                && entry.reply == reply
                && matches!(entry.call, Call::Seal) == (reply == Reply::Sealed)
        }
        None => false,
    }
}

/// Returns whether an entry is at this index of a full history.
fn is_of_full(index: usize, entry: &Entry) -> bool {
    match &entry.call {
        Call::Admit(_) | Call::AdmitPaced(_) => false,
        Call::Withdraw(name) => {
            let is_refused = entry.reply == Reply::Refused(Refused::NotHeld);
            is_refused && index < 100_000 && name.as_str() == "q"
        }
        Call::Seal => entry.reply == Reply::Sealed && index >= 100_000,
    }
}

/// Returns whether the history is full.
fn is_full(asked: &Admission) -> bool {
    let entries = asked.history();
    entries.len() == 200_000
        && entries
            .iter()
            .enumerate()
            .all(|(index, entry)| is_of_full(index, entry))
}

/// Returns whether a step has its result.
fn goes_so(alloc: Global, asked: &mut Admission, step: &Step) -> bool {
    match *step {
        Step::Admit(stream, answer) => admits(alloc, asked, &stream, answer),
        Step::Withdraw(name, answer) => is_answer(asked.withdraw(0, name), answer),
        Step::WithdrawOften(count) => withdraw_often(asked, count),
        Step::Seal(count) => seal_often(asked, count),
        Step::SealFails(fault) => seal_fails(asked, fault),
        Step::Table(cycle, looks) => seals(alloc, asked, cycle, looks),
        Step::Held(costs) => holds(asked, costs),
        Step::History(entries, reply, next) => {
            asked.next_cycle() == Cycle(next) && ends_in(asked, entries, reply)
        }
        Step::Full => is_full(asked),
    }
}

/// Returns whether all steps have their results.
fn all_go_so(alloc: Global, asked: &mut Admission, steps: &[Step]) -> bool {
    for step in steps {
        if !goes_so(alloc, asked, step) {
            return false;
        }
    }
    true
}

/// Returns whether the steps have their results with an admission, and then with a copy from before.
fn both_go_so(alloc: Global, asked: &mut Admission, steps: &[Step]) -> bool {
    match asked.try_copy(alloc) {
        Ok(mut copy) => all_go_so(alloc, asked, steps) && all_go_so(alloc, &mut copy, steps),
        Err(_) => false,
    }
}

/// Returns whether a case over a domain has its results.
fn comes_out(alloc: Global, domain: &Domain, case: &Case) -> bool {
    match Admission::new(alloc, domain) {
        Ok(mut asked) => {
            all_go_so(alloc, &mut asked, case.0) && both_go_so(alloc, &mut asked, case.1)
        }
        Err(_) => false,
    }
}

/// Returns the first case over the domain of a text that doesn't have its results, if there is one.
fn first_wrong(alloc: Global, text: &str, cases: &[Case]) -> Option<usize> {
    let Ok(domain) = Domain::read(alloc, text.as_bytes()) else {
        return Some(0);
    };
    for index in 0..cases.len() {
        if !comes_out(alloc, &domain, &cases[index]) {
            return Some(index);
        }
    }
    None
}

#[test]
fn streams_on_a_line_are_held_within_its_budget_until_they_have_left(rt: HostRuntime) {
    assert_eq!(rt; first_wrong(rt.alloc(), line(), OVER_LINE), None);
}

#[test]
fn octets_that_gates_leave_out_are_held_too(rt: HostRuntime) {
    assert_eq!(rt; first_wrong(rt.alloc(), UNCOUNTED, OVER_UNCOUNTED), None);
}

#[test]
fn a_history_takes_a_hundred_thousand_calls_and_as_many_seals(rt: HostRuntime) {
    assert_eq!(rt; first_wrong(rt.alloc(), line(), OVER_THE_LIMIT), None);
    assert_eq!(rt; first_wrong(rt.alloc(), one_link(), OVER_THE_LIMIT), None);
}

#[test]
fn a_path_has_16_bridges_at_most(rt: HostRuntime) {
    assert_eq!(rt; first_wrong(rt.alloc(), CHAIN, OVER_CHAIN), None);
}

#[test]
fn branches_that_make_no_tree_are_refused(rt: HostRuntime) {
    assert_eq!(rt; first_wrong(rt.alloc(), ring(), OVER_RING), None);
}

#[test]
fn a_shared_link_is_charged_once_until_the_deepest_branch_is_empty(rt: HostRuntime) {
    assert_eq!(rt; first_wrong(rt.alloc(), fork(), OVER_FORK), None);
}

/// The queries to the table of cycle 0, in which x is held and not yet withdrawn.
const BEFORE: &[Look] = &[
    Look::Rows(1),
    Look::Named("x", 0, true),
    Look::Named("x", 1, true),
    Look::Numbered(0, 1, true),
];

/// The queries to that of cycle 1, from which on x is withdrawn, and y is held.
const AFTER: &[Look] = &[
    Look::Rows(2),
    Look::Named("x", 0, true),
    Look::Named("x", 1, false),
    Look::Numbered(1, 1, true),
];

/// Returns whether a table and its copy stay unchanged while the admission that gave the table goes on, and the copy when the table is
/// dropped.
fn stay(alloc: Global, asked: &mut Admission, table: Table) -> bool {
    let Ok(copy) = table.try_copy(alloc) else {
        return false;
    };
    let goes_on = is_answer(asked.withdraw(0, "x"), Ok((0, 1)))
        && admits(alloc, asked, &("y", 64, WHOLE), Ok((1, 1)))
        && seals(alloc, asked, 1, AFTER);
    let kept = is_table(&copy, 0, BEFORE) && is_table(&table, 0, BEFORE);
    drop(table);
    goes_on && kept && is_table(&copy, 0, BEFORE)
}

/// Returns whether they do with an admission over the domain.
fn tables_stay(alloc: Global, domain: &Domain) -> bool {
    let Ok(mut asked) = Admission::new(alloc, domain) else {
        return false;
    };
    if !admits(alloc, &mut asked, &("x", 64, WHOLE), Ok((0, 0))) {
        return false;
    }
    match asked.seal(9) {
        Ok(table) => stay(alloc, &mut asked, table),
        Err(_) => false,
    }
}

/// Returns whether they do over the line.
fn tables_stay_on_line(alloc: Global) -> bool {
    match Domain::read(alloc, line().as_bytes()) {
        Ok(domain) => tables_stay(alloc, &domain),
        Err(_) => false,
    }
}

#[test]
fn a_table_and_its_copy_stay_as_they_are(rt: HostRuntime) {
    assert!(rt; tables_stay_on_line(rt.alloc()));
}
