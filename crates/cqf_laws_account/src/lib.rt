//! Laws about what is left when a run on threads has ended and its lists are compared: from the seats of a desk to the history, and from
//! the traces to the book.
//!
//! Each law is a function that does nothing. Its contract is a statement of `specs/`, and its proof shows that the statement holds for each
//! domain and history. A proof elsewhere uses the law by calling the function.
//!
//! - If one seat of a desk makes all Seals, the tables that it closes are those of the history ([`one_seat_closes_all_tables`]). The history of
//!   a desk has exactly what was requested from its seats ([`seats_give_the_history`]).
//! - The traces of a book determine it, cycle by cycle and link by link, without sorting ([`traces_give_the_book`]).
//!
//! ```
//! // from here on, a proof knows that the traces of a book determine it
//! cqf_laws_account::traces_give_the_book();
//! ```
#![tactic(auto)]

ghost use Rattle.cqf_laws_account.specs.Sealing.{OneSeatClosesAllTables};
ghost use Rattle.cqf_laws_account.specs.Seated.{ConductorHasTheTables, SeatsGiveTheHistory};
ghost use Rattle.cqf_laws_account.specs.Traced.{TracesGiveTheBook};

/// Proves that if one seat of a desk makes all Seals, the tables that it closes are the tables of the history's cycles, in order.
pub fn one_seat_closes_all_tables()
    ensures { OneSeatClosesAllTables }
{}

/// Proves laws about a desk at which each administrator makes the requested calls and the next seat seals one cycle after the other. The
/// closed history has exactly these calls. If the opening part has no Seal, and no Seal is requested from an administrator, the sealing
/// seat's tables are those of the history's cycles.
pub fn seats_give_the_history()
    ensures history { SeatsGiveTheHistory }
    ensures tables { ConductorHasTheTables }
{
    one_seat_closes_all_tables();
}

/// Proves that the traces of a book determine it: cycle by cycle the starts link by link, each from the link's trace, whose instants don't
/// decrease, and the drops bridge by bridge.
pub fn traces_give_the_book()
    ensures { TracesGiveTheBook }
{}
