//! Laws about coverage and the sums by link: the verdict on each offer by the rows that a history ever granted, and so what a book
//! says by link, computed only from the offers and these rows. [`Column`] is what one link carries.
//!
//! Each law is a function that ends at once. Its contract is a statement of `specs/` about the definitions of `cqf_model`, and its
//! proof shows that the statement holds. To use a law, another proof calls the function.
//!
//! ```
//! // from here on, a proof knows that the starts of a book are the hops of the covered offers
//! cqf_laws_coverage::starts_are_hops();
//! ```
#![tactic(auto)]

ghost use Rattle.cqf_laws_coverage.specs.Counted.{ColumnsReport, HistoryIsCounted, StartsAreHops};
ghost use Rattle.cqf_laws_coverage.specs.InOneCycle.{MostIsTheGreatest};
ghost use Rattle.cqf_laws_coverage.specs.Rows.{AsLive, OneIsInForce, RowsAreFound, RowsOfANameFollow, RowsSayTheTables, RowsStandAsTheyBegin};
ghost use Rattle.cqf_laws_coverage.specs.Judged.{
  CounterOfTheRow,
  CountersBegin,
  CountersGoOn,
  CountersOfOthers,
  OffersAreJudged,
  OffersBeforeStandBefore,
  ReportIsCounted,
};
ghost use Rattle.cqf_laws_coverage.specs.Reported.{BookOfHistoryIsThere, CellsFit};

mod column;

pub use column::Column;

/// Proves that the starts of a book are the hops of the covered offers: any count over the starts equals the count over the hops,
/// if it counts nothing after the run.
pub fn starts_are_hops()
    ensures { StartsAreHops }
{
    cqf_laws_cycle::port_is_one_cycle_late();
    cqf_laws_cycle::streams_are_sent_as_alone();
    cqf_laws_cycle::gate_gives_class();
    cqf_laws_cycle::gate_counts_cycles();
    cqf_laws_shift::run_beside_is_run_alone();
    cqf_laws_shift::book_says_the_shift();
}

/// Proves that a link's frames, octets and octets in a cycle are those of the covered offers' hops, in each book of a legal
/// history.
pub fn history_is_counted()
    ensures { HistoryIsCounted }
{
    starts_are_hops();
    cqf_laws_history::tables_are_orderly();
}

/// Proves that the most octets that a link has in one cycle is a maximum over all cycles: no cycle has more, and one cycle has as
/// much, unless it is 0.
pub fn most_is_the_greatest()
    ensures { MostIsTheGreatest }
{}

/// Proves that a list of a link's octets in each cycle gives its octets in all, and the most in one cycle.
pub fn columns_report()
    ensures { ColumnsReport }
{}

/// Proves that the rows that a history ever accepted determine the table of each cycle that the history closes, and the row of each
/// name in that table. No two rows of the same name are held in one cycle.
pub fn rows_say_the_tables()
    ensures tables { RowsSayTheTables }
    ensures found { RowsAreFound }
    ensures live { AsLive }
    ensures one { OneIsInForce }
{
    cqf_laws_history::tables_are_orderly();
}

/// Proves that rows are in the order in which they begin, and that those of the same name follow one another in time. So an index
/// that only increases finds the row in force.
pub fn rows_follow()
    ensures begin { RowsStandAsTheyBegin }
    ensures follow { RowsOfANameFollow }
{
    rows_say_the_tables();
    cqf_laws_history::state_follows_history();
}

/// Proves that if offers are in order of instant, the offers before an offer precede it in the list. So what they take of a row can
/// be counted in one pass.
pub fn offers_stand_in_order()
    ensures before { OffersBeforeStandBefore }
    ensures goes_on { CountersGoOn }
    ensures begins { CountersBegin }
{}

/// Proves that four tests by the row in force and its counter decide on an offer what the definitions say.
pub fn offers_are_judged()
    ensures { OffersAreJudged }
{
    rows_say_the_tables();
    offers_stand_in_order();
}

/// Proves that among the rows that are held in an offer's cycle, the offer changes only the counter of the row in force.
pub fn counters_step()
    ensures row { CounterOfTheRow }
    ensures others { CountersOfOthers }
{
    rows_say_the_tables();
}

/// Proves that a book's sums by link are those of the hops of the offers that pass these tests.
pub fn report_is_counted()
    ensures { ReportIsCounted }
{
    history_is_counted();
    offers_are_judged();
}

/// Proves that what leaves by a link in a cycle is within the link's budget, so that it fits into a cell of the link's column.
pub fn cells_fit()
    ensures { CellsFit }
{
    report_is_counted();
    cqf_laws_network::book_exists();
    cqf_laws_history::tables_are_orderly();
    cqf_laws_cycle::port_is_one_cycle_late();
    cqf_laws_cycle::streams_are_sent_as_alone();
    cqf_laws_cycle::gate_gives_class();
    cqf_laws_cycle::gate_counts_cycles();
    cqf_laws_shift::run_beside_is_run_alone();
    cqf_laws_shift::gates_mean_the_shift();
}

/// Proves that the book of a legal history exists without any run: there is exactly one, and all that is promised of a run's book
/// holds for it.
pub fn book_of_history_is_there()
    ensures { BookOfHistoryIsThere }
{
    cqf_laws_network::book_exists();
    cqf_laws_network::book_is_unique();
    cqf_laws_history::tables_are_orderly();
    cqf_laws_shift::book_says_the_shift();
}
