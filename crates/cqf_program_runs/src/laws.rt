//! Laws about deliveries, verdicts and books.
ghost use Rattle.cqf_program_runs.specs.Deliveries.ArrivalLaws.{ArrivalsAreTheShift, EachIsWrittenOnce, EachListenerIsWrittenOnce};
ghost use Rattle.cqf_program_runs.specs.Deliveries.BookLaws.{VerdictsGiveDeliveries};
ghost use Rattle.cqf_program_runs.specs.Check.Laws.{CheckIsWellExactly};

/// Proves that, if a book says the shift, its deliveries are those by the verdicts on the offers. A covered offer goes
/// to each listener of the row that covers it, and every other is dropped for the first reason that applies.
pub fn verdicts_give_deliveries()
    ensures { VerdictsGiveDeliveries }
{}

/// Proves that, if a book says the shift, a check reports that all is well if and only if:
///
/// - There is an offer.
/// - No call of the history is refused.
/// - Each offer is of a cycle that is run, a row covers it, and its frame is whole within its deadline at each listener
///   of that row.
pub fn check_is_well_exactly()
    ensures { CheckIsWellExactly }
{}

/// Proves that, if a book says the shift, the deliveries that have arrived, in time or late, are exactly the shift's
/// frames on links to stations. Each says when the frame of an offer that a row covers is whole at a listener of that
/// row.
pub fn arrivals_are_the_shift()
    ensures { ArrivalsAreTheShift }
{}

/// Proves that, if a book says the shift and an offer is of a cycle that is run, its deliveries are one to each
/// listener of the row that covers it, and nothing else, or its one drop. In a well-formed domain exactly one of them
/// has the name of each listener.
pub fn each_is_written_once()
    ensures once { EachIsWrittenOnce }
    ensures listeners { EachListenerIsWrittenOnce }
{}
