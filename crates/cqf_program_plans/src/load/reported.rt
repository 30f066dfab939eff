//! The output of `load`, written line by line.
ghost use Rattle.std.specs.Prelude.{◌≡◌, ◌-◌, ◌<◌, ◌≤◌, ◌^◌, All, decimal, length};
ghost use Rattle.cqf_model.specs.Domain.{budget};
ghost use Rattle.cqf_model.specs.Limits.{most_overhead};
ghost use Rattle.cqf_program_plans.specs.Load.Fitting.{fits_in, megabits_of, rate_on};
ghost use Rattle.cqf_program_plans.specs.Load.Text.{left_text, lines_of_links, load_fields, load_header, load_text, percentage_text, used_text};
ghost use Rattle.cqf_program_plans.specs.Load.Access.{TakesLittle, access_fields, lines_of_access, name_of_access};
ghost use Rattle.cqf_program_plans.specs.Load.Written.{text_of_load};
ghost use Rattle.cqf_output.specs.Edge.{IsWritten, writing};
ghost use Rattle.cqf_output.specs.Writer.{Puts};
ghost use Rattle.cqf_report.specs.Written.{line_of_fields};

use crate::load::access::AccessLoad;
use crate::load::listing::LoadListing;
use crate::load::outputs::LoadOutput;
use cqf_model::{LEAST_OCTETS, MOST_OCTETS};
use cqf_output::{CheckedSink, Sink, Writer};
use cqf_topology::{Domain, put_link};
use cqf_units::Rate;

/// Returns a rate in Mb/s.
pub fn megabits_of(rate: Rate) -> u32
    ensures { result ≡ megabits_of rate }
{
    match rate {
        Rate::Mb10 => 10,
        Rate::Mb100 => 100,
        Rate::Mb1000 => 1000,
        Rate::Mb2500 => 2500,
        Rate::Mb5000 => 5000,
        Rate::Mb10000 => 10_000,
        Rate::Mb25000 => 25_000,
        Rate::Mb40000 => 40_000,
        Rate::Mb100000 => 100_000,
    }
}

/// Returns the rate of a link in Mb/s.
fn rate_on(domain: &Domain, link: u16) -> u32
    requires { link < length domain.now.links }
    ensures { result ≡ rate_on domain.now link }
{
    megabits_of(domain.link(link).rate)
}

/// Returns the budget of a link, in octets per cycle. A domain has at most 4,096 links.
pub(crate) fn budget_on(domain: &Domain, link: u16) -> u64
    requires { link < length domain.now.links }
    ensures value { result ≡ budget domain.now link }
    ensures range { result < 2 ^ 32 }
    ensures low { link < 4096 }
{
    // the domain is accepted, so it has no more links than can be represented
    domain.know();
    u64::from(cqf_admission::budget_on(domain, link).0)
}

/// Returns the greatest reservation, in octets per cycle, that costs no more than `left`, given the gate overhead, or 0 if there is none. `left`
/// is below 2^32.
fn fits_in(overhead: u32, left: u64) -> u64
    requires overhead { overhead ≤ most_overhead }
    requires left { left < 2 ^ 32 }
    ensures { result ≡ fits_in overhead left }
{
    let frames = left / 84;
    if frames == 0 {
        return 0;
    }
    let less = u64::from(overhead);
    let beside = (less + 20) * frames;
    let counted = (64 - less) * frames;
    let by_octets = left - beside;
    let by_frames = counted + (63 - less);
    let greatest = by_octets.min(by_frames).min(u64::from(MOST_OCTETS));
    if greatest < u64::from(LEAST_OCTETS) {
        0
    } else {
        greatest
    }
}

/// Puts what is left of a budget, negative if more is held.
fn put_left<W: Sink>(writer: &mut Writer<'_, W>, budget: u64, held: u128)
    ensures { Puts W.contents writer.old writer.new (left_text budget held) }
{
    let budget = u128::from(budget);
    if held <= budget {
        writer.put_number(budget - held);
    } else {
        writer.put_byte(b'-');
        writer.put_number(held - budget);
    }
}

/// Puts thousandths as a percentage.
fn put_percentage<W: Sink>(writer: &mut Writer<'_, W>, thousandths: u128)
    ensures { Puts W.contents writer.old writer.new (percentage_text thousandths) }
{
    writer.put_number(thousandths / 10);
    writer.put_byte(b'.');
    writer.put_number(thousandths % 10);
}

/// Puts the share of a budget that is held; nothing if the budget is 0.
pub(crate) fn put_used<W: Sink>(writer: &mut Writer<'_, W>, budget: u64, held: u128)
    requires { held < 2 ^ 110 }
    ensures { Puts W.contents writer.old writer.new (used_text budget held) }
{
    if budget != 0 {
        put_percentage(writer, 1000 * held / u128::from(budget));
    }
}

/// Puts the greatest reservation that still fits a budget, given the gate overhead.
fn put_fits<W: Sink>(writer: &mut Writer<'_, W>, overhead: u32, budget: u64, held: u64)
    requires overhead { overhead ≤ most_overhead }
    requires budget { budget < 2 ^ 32 }
    ensures { Puts W.contents writer.old writer.new (decimal (fits_in overhead (budget - held))) }
{
    writer.put_number(fits_in(overhead, budget.saturating_sub(held)));
}

/// Puts the line of a link.
fn put_line<W: Sink>(writer: &mut Writer<'_, W>, domain: &Domain, listing: &LoadListing, link: u16)
    requires { link < length domain.now.links }
    ensures { Puts W.contents writer.old writer.new (line_of_fields (load_fields domain.now listing.now link)) }
{
    let (most, cost) = (budget_on(domain, link), listing.cost_on(link));
    let held = u128::from(cost);
    put_link(writer, domain, link);
    writer.put_byte(b',');
    writer.put_number(rate_on(domain, link));
    writer.put_byte(b',');
    writer.put_number(most);
    writer.put_byte(b',');
    writer.put_number(cost);
    writer.put_byte(b',');
    put_left(writer, most, held);
    writer.put_byte(b',');
    put_fits(writer, domain.overhead(), most, cost);
    writer.put_byte(b',');
    writer.put_number(listing.streams_on(link));
    writer.put_byte(b',');
    put_used(writer, most, held);
    writer.put_byte(b'\n');
}

/// Puts the name of an access link: those of its ends.
pub(crate) fn put_access_name<W: Sink>(writer: &mut Writer<'_, W>, load: &AccessLoad)
    ensures { Puts W.contents writer.old writer.new (name_of_access load.now) }
{
    writer.put(load.from.as_bytes());
    writer.put_byte(b'>');
    writer.put(load.to.as_bytes());
}

/// Puts the line of an access link. Nothing is reserved on it, so nothing fits.
fn put_access<W: Sink>(writer: &mut Writer<'_, W>, load: &AccessLoad)
    requires { TakesLittle load.now }
    ensures { Puts W.contents writer.old writer.new (line_of_fields (access_fields load.now)) }
{
    put_access_name(writer, load);
    writer.put_byte(b',');
    writer.put_number(megabits_of(load.rate));
    writer.put_byte(b',');
    writer.put_number(load.budget);
    writer.put_byte(b',');
    writer.put_number(load.held);
    writer.put_byte(b',');
    put_left(writer, load.budget, load.held);
    writer.put_byte(b',');
    writer.put_byte(b',');
    writer.put_number(load.streams);
    writer.put_byte(b',');
    put_used(writer, load.budget, load.held);
    writer.put_byte(b'\n');
}

/// Puts a line for each access link.
fn put_all_access<W: Sink>(writer: &mut Writer<'_, W>, loads: &[AccessLoad])
    requires { All TakesLittle loads.now }
    ensures { Puts W.contents writer.old writer.new (lines_of_access loads.now) }
{
    for load in loads {
        put_access(writer, load);
    }
}

/// Puts the header.
fn put_header<W: Sink>(writer: &mut Writer<'_, W>)
    ensures { Puts W.contents writer.old writer.new (line_of_fields load_header) }
{
    writer.put(b"link,rate,budget,held,left,fits,streams,used\n");
}

/// Puts a line for each link.
fn put_lines<W: Sink>(writer: &mut Writer<'_, W>, domain: &Domain, listing: &LoadListing)
    ensures { Puts W.contents writer.old writer.new (lines_of_links domain.now listing.now (length domain.now.links)) }
{
    for link in 0..domain.links() {
        put_line(writer, domain, listing, link);
    }
}

/// Puts the header, and a line for each link.
fn put_load<W: Sink>(writer: &mut Writer<'_, W>, domain: &Domain, listing: &LoadListing)
    ensures { Puts W.contents writer.old writer.new (load_text domain.now listing.now) }
{
    put_header(writer);
    put_lines(writer, domain, listing);
}

impl LoadOutput {
    /// Writes the output: a line for each link, and then one for each access link. It allocates no memory.
    pub fn write<W: Sink>(self, reported: &mut CheckedSink<W>)
        ensures { IsWritten (writing W.contents reported.old reported.new) (text_of_load self) }
    {
        let LoadOutput {
            domain,
            listing,
            access,
            buffer,
        } = self;
        let mut writer = Writer::new(reported, buffer);
        put_load(&mut writer, &domain, &listing);
        put_all_access(&mut writer, access.as_slice());
        let _written = writer.close();
    }
}
