//! What the definitions of the tables mean, in terms of indexes alone, and what those of the sums by link say about a book.

ghost use Rattle.std.specs.Prelude.{ℕ, List};
ghost use Rattle.cqf_model.specs.Book.{Contents, IsBook};
ghost use Rattle.cqf_model.specs.Domain.{Domain as DomainValue};
ghost use Rattle.cqf_model.specs.GateList.{Entry};
ghost use Rattle.cqf_model.specs.Limits.{profile, rows_within};
ghost use Rattle.cqf_model.specs.Run.{Run};
ghost use Rattle.cqf_report.specs.Arrivals.{arrival_instant, arrival_of};
ghost use Rattle.cqf_report.specs.BackgroundFrames.{background_instant, background_of_table};
ghost use Rattle.cqf_report.specs.LinkSums.{AreSumsInOrder};
ghost use Rattle.cqf_report.specs.Offers.{offer_instant, offer_of};
ghost use Rattle.cqf_report.specs.Records.{Fields};
ghost use Rattle.cqf_report.specs.SumsWritten.{ReportIsWritten};
ghost use Rattle.cqf_report.specs.Table.{in_five, in_four};
ghost use Rattle.cqf_report.specs.TableLaws.{ReadInOrder, WritesFirst};

/// Proves that the fault that is reported for the rows of a table is the first. Each row before it has the form of a row of this table and
/// isn't before the previous row. The reported row is the first that breaks one of the two, or there are more rows than the limit.
pub fn first_fault_is_written()
    ensures arrivals { (rows : List Fields) → WritesFirst (rows_within profile) (in_four arrival_of) arrival_instant rows }
    ensures offers { (d : DomainValue) (rows : List Fields) → WritesFirst (rows_within d.limits) (in_four (offer_of d)) offer_instant rows }
    ensures background { (d : DomainValue) (rows : List Fields) → WritesFirst (rows_within d.limits) (in_five (background_of_table d)) background_instant rows }
{}

/// Proves that the offers that a text writes are in order of instant.
pub fn offers_are_read_in_order()
    ensures { ReadInOrder }
{}

/// Proves that the starts of every book are in order of cycle, and within a cycle in order of link.
pub fn books_are_in_order()
    ensures { (run : Run) (lists : ℕ → List Entry) (cycles : ℕ) (book : Contents) → IsBook run lists cycles book → AreSumsInOrder book.starts }
{}

/// Proves that the text of a book's sums by link can be written from a count of frames and a column of octets for each link, if these are
/// those of the hops of the covered offers.
pub fn report_is_written()
    ensures { ReportIsWritten }
{
    cqf_laws_coverage::report_is_counted();
    cqf_laws_coverage::columns_report();
}
