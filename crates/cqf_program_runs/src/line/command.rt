//! The command `line`: the book of one bridge with one stream.
ghost use Rattle.std.specs.Prelude.{ℕ, ◌≡◌, ◌≤◌, Ok, IfOk, IfErr, List, length};
ghost use Rattle.cqf_laws_coverage.specs.Judged.{StandInOrder};
ghost use Rattle.cqf_model.specs.Run.{AreOffers};
ghost use Rattle.cqf_output.specs.Edge.{IsWritten, writing};
ghost use Rattle.cqf_output.specs.Stops.{IsRefused};
ghost use Rattle.cqf_program_runs.specs.Line.{line_domain};
ghost use Rattle.cqf_program_runs.specs.Line.Written.{IsLineWritten};
ghost use Rattle.cqf_program_runs.specs.Line.Output.{line_input, offers_input, IsBookText, IsLineOutput};
ghost use Rattle.cqf_model.specs.Limits.{most_cycles, most_offers};

use crate::line::domain::domain_of_line;
use crate::line::given::given_to_line;
use crate::line::outputs::LineOutput;
use cqf_laws_history::{closed_tables_stay, state_follows_history};
use cqf_model::Offer;
use cqf_output::{Buffer, CheckedSink, Sink, Stop, Writer};
use cqf_program_scenario::{book_of_outcome, offers_part, one_part, outcome_of};
use cqf_report::offers_are_read_in_order;
use cqf_topology::Domain;
use cqf_units::Memory;
use std::alloc::Global;

/// Reads the offers of the input, to a domain.
fn read_line(alloc: Global, domain: &Domain, input: &[u8]) -> Result<Vec<Offer>, Stop>
    ensures ok { IfOk result (λ offers. offers_input domain.now input.now ≡ Ok offers.items) }
    ensures good { IfOk result (λ offers. AreOffers domain.now offers.items) }
    ensures few { IfOk result (λ offers. length offers.items ≤ most_offers) }
    ensures order { IfOk result (λ offers. StandInOrder offers.items) }
    ensures err { IfErr result (IsRefused (offers_input domain.now input.now)) }
{
    offers_are_read_in_order();
    let text = one_part(alloc, input)?;
    offers_part(alloc, domain, text)
}

/// Returns the output for these offers.
fn output_of_line(
    alloc: Global,
    domain: Domain,
    offers: Vec<Offer>,
    cycles: u32,
) -> Result<LineOutput, Memory>
    requires domain { domain ≡ line_domain }
    requires offers { AreOffers line_domain offers.items }
    requires few { length offers.items ≤ most_offers }
    requires order { StandInOrder offers.items }
    requires short { cycles ≤ most_cycles }
    ensures { IfOk result (λ output. (text : List ℕ) × IsLineWritten output text × IsBookText cycles offers.items text) }
{
    state_follows_history();
    closed_tables_stay();
    let given = given_to_line(alloc, domain, offers)?;
    let outcome = outcome_of(alloc, cycles, &given)?;
    let book = book_of_outcome(alloc, cycles, &given, &outcome)?;
    let buffer = Buffer::new(alloc)?;
    Ok(LineOutput {
        domain: given.domain,
        book,
        buffer,
    })
}

impl LineOutput {
    /// Writes the output: the book of the line. Allocates no memory.
    pub fn write<W: Sink>(self, reported: &mut CheckedSink<W>)
        ensures { (text : List ℕ) → IsLineWritten self text → IsWritten (writing W.contents reported.old reported.new) text }
    {
        let LineOutput {
            domain,
            book,
            buffer,
        } = self;
        let mut writer = Writer::new(reported, buffer);
        book.put(&mut writer, &domain);
        let _written = writer.close();
    }
}

/// Returns the output of `line`, ready to be written: the book of `cycles` cycles, 0 to 100,000.
///
/// # Errors
/// With status 1 and the line of the first fault of the input: of its parts, or of the offers. With status 3 if an
/// allocation fails.
pub fn line_output(alloc: Global, cycles: u32, input: &[u8]) -> Result<LineOutput, Stop>
    requires { cycles ≤ most_cycles }
    ensures ok { IfOk result (λ output. (text : List ℕ) × IsLineWritten output text × IsLineOutput cycles input.now text) }
    ensures err { IfErr result (IsRefused (line_input input.now)) }
{
    let Ok(domain) = domain_of_line(alloc) else {
        return Err(Stop::memory(alloc));
    };
    let offers = read_line(alloc, &domain, input)?;
    match output_of_line(alloc, domain, offers, cycles) {
        Ok(output) => Ok(output),
        Err(_) => Err(Stop::memory(alloc)),
    }
}
