//! Inputs with the missing parts added.
ghost use Rattle.std.specs.Prelude.{ℕ, ◌≡◌, [], ◌∷◌, IfErr, IfOk, List, Ok, map};
ghost use Rattle.std.specs.Option.{option_map_or};
ghost use Rattle.cqf_admission.specs.Asking.{asked_paced};
ghost use Rattle.cqf_admission.specs.Script.{script_of};
ghost use Rattle.cqf_admission.specs.Orders.{ordered_in};
ghost use Rattle.cqf_program_offers.specs.Made.{calls_for, calls_of_network, input_of, is_planned, made_for, made_of_parts};
ghost use Rattle.cqf_program_offers.specs.Made.{with_both, with_calls, with_offers};
ghost use Rattle.cqf_program_scenario.specs.Lines.{script_line};
ghost use Rattle.cqf_output.specs.Stops.{EndsWith, IsRefused, or_line};

use crate::calls::made_calls;
use crate::offers::made_offers;
use crate::parts::{copied_requests, requests_part};
use crate::reading::flows_of_parts;
use cqf_admission::{Names, Ordered};
use cqf_model::Limits;
use cqf_network::NetworkDomain;
use cqf_output::Stop;
use cqf_program_files::{begins_as_offers, cycles_of};
use cqf_program_scenario::{domain_of, network_part, script_part};
use cqf_program_words::{Job, joined};
use cqf_text::parts;
use cqf_topology::PacedRequest;
use std::alloc::Global;

/// Returns whether a job reads deadlines.
fn is_planned(job: &Job) -> bool
    ensures { result ≡ is_planned job.now }
{
    matches!(
        *job,
        Job::Deliveries { .. } | Job::Check { .. } | Job::Summary { .. }
    )
}

/// Returns parts as an input. Returns `Err` with status 3 if an allocation fails.
fn input_of(alloc: Global, first: &[u8], rest: &[&[u8]]) -> Result<Vec<u8>, Stop>
    ensures ok { IfOk result (λ input. input.items ≡ input_of first.now (map (λ text. text.now) rest.now)) }
    ensures err { IfErr result (EndsWith 3 []) }
{
    match joined(alloc, false, first, rest) {
        Ok(input) => Ok(input),
        Err(_) => Err(Stop::memory(alloc)),
    }
}

/// Returns a plan alone, with calls and offers.
fn with_both(
    alloc: Global,
    limits: Limits,
    cycles: u32,
    domain: &[u8],
    streams: &[u8],
) -> Result<Vec<u8>, Stop>
    ensures ok { IfOk result (λ made. with_both limits cycles domain.now streams.now ≡ Ok made.items) }
    ensures err { IfErr result (IsRefused (with_both limits cycles domain.now streams.now)) }
{
    let (plan, flows) = flows_of_parts(alloc, limits, domain, streams)?;
    let requests = copied_requests(alloc, flows.as_slice())?;
    let script = made_calls(alloc, &plan, requests.as_slice())?;
    let offers = made_offers(alloc, &plan, cycles, flows.as_slice())?;
    input_of(
        alloc,
        domain,
        &[streams, script.as_slice(), offers.as_slice()],
    )
}

/// Returns the orders of a script over streams, which are read only for the script's first fault.
fn check_script(
    alloc: Global,
    cycles: u32,
    requests: &[PacedRequest],
    script: &[u8],
) -> Result<Vec<Ordered>, Stop>
    ensures ok { IfOk result (λ orders. script_of (map asked_paced requests.now) cycles script.now
        ≡ Ok (map (ordered_in (map asked_paced requests.now) script.now) orders.items)) }
    ensures err { IfErr result (IsRefused (or_line script_line (script_of (map asked_paced requests.now) cycles script.now))) }
{
    let Ok(names) = Names::new(alloc, requests) else {
        return Err(Stop::memory(alloc));
    };
    match script_part(alloc, &names, cycles, script) {
        Ok(orders) => Ok(orders),
        Err(stop) => Err(stop),
    }
}

/// Returns a plan and a script, with offers.
fn with_offers(
    alloc: Global,
    limits: Limits,
    cycles: u32,
    domain: &[u8],
    streams: &[u8],
    script: &[u8],
) -> Result<Vec<u8>, Stop>
    ensures ok { IfOk result (λ made. with_offers limits cycles domain.now streams.now script.now ≡ Ok made.items) }
    ensures err { IfErr result (IsRefused (with_offers limits cycles domain.now streams.now script.now)) }
{
    let (plan, flows) = flows_of_parts(alloc, limits, domain, streams)?;
    let requests = copied_requests(alloc, flows.as_slice())?;
    let _orders = check_script(alloc, cycles, requests.as_slice(), script)?;
    let offers = made_offers(alloc, &plan, cycles, flows.as_slice())?;
    input_of(alloc, domain, &[streams, script, offers.as_slice()])
}

/// Returns the script that is made for a network and the streams of a part for it.
fn calls_of_network(
    alloc: Global,
    network: &NetworkDomain,
    planned: bool,
    streams: &[u8],
) -> Result<Vec<u8>, Stop>
    ensures ok { IfOk result (λ script. calls_of_network network.now planned streams.now ≡ Ok script.items) }
    ensures err { IfErr result (IsRefused (calls_of_network network.now planned streams.now)) }
{
    let requests = requests_part(alloc, network, planned, streams)?;
    let domain = domain_of(alloc, network)?;
    made_calls(alloc, &domain, requests.as_slice())
}

/// Returns the script that is made for a plan.
fn calls_for(
    alloc: Global,
    limits: Limits,
    planned: bool,
    domain: &[u8],
    streams: &[u8],
) -> Result<Vec<u8>, Stop>
    ensures ok { IfOk result (λ script. calls_for limits planned domain.now streams.now ≡ Ok script.items) }
    ensures err { IfErr result (IsRefused (calls_for limits planned domain.now streams.now)) }
{
    let network = network_part(alloc, limits, domain)?;
    calls_of_network(alloc, &network, planned, streams)
}

/// Returns a plan and offers, with calls.
fn with_calls(
    alloc: Global,
    limits: Limits,
    planned: bool,
    domain: &[u8],
    streams: &[u8],
    offers: &[u8],
) -> Result<Vec<u8>, Stop>
    ensures ok { IfOk result (λ made. with_calls limits planned domain.now streams.now (offers.now ∷ []) ≡ Ok made.items) }
    ensures err { IfErr result (IsRefused (with_calls limits planned domain.now streams.now (offers.now ∷ []))) }
{
    let script = calls_for(alloc, limits, planned, domain, streams)?;
    input_of(alloc, domain, &[streams, script.as_slice(), offers])
}

/// Returns a plan, offers and the following part, with calls.
fn with_calls_between<'p>(
    alloc: Global,
    limits: Limits,
    planned: bool,
    domain: &[u8],
    streams: &'p [u8],
    offers: &'p [u8],
    last: &'p [u8],
) -> Result<Vec<u8>, Stop>
    ensures ok { IfOk result (λ made. with_calls limits planned domain.now streams.now (offers.now ∷ last.now ∷ []) ≡ Ok made.items) }
    ensures err { IfErr result (IsRefused (with_calls limits planned domain.now streams.now (offers.now ∷ last.now ∷ []))) }
{
    let script = calls_for(alloc, limits, planned, domain, streams)?;
    input_of(alloc, domain, &[streams, script.as_slice(), offers, last])
}

/// Returns a plan and a third part, with offers or calls.
fn made_of_three(
    alloc: Global,
    limits: Limits,
    planned: bool,
    cycles: u32,
    domain: &[u8],
    streams: &[u8],
    third: &[u8],
) -> Result<Option<Vec<u8>>, Stop>
    ensures ok { IfOk result (λ made. (input : List ℕ) →
        made_of_parts limits planned cycles input (domain.now ∷ streams.now ∷ third.now ∷ [])
        ≡ Ok (option_map_or (λ text. text.items) made input)) }
    ensures err { IfErr result (λ stop. (input : List ℕ) →
        IsRefused (made_of_parts limits planned cycles input (domain.now ∷ streams.now ∷ third.now ∷ [])) stop) }
{
    if begins_as_offers(third) {
        let made = with_calls(alloc, limits, planned, domain, streams, third)?;
        return Ok(Some(made));
    }
    let made = with_offers(alloc, limits, cycles, domain, streams, third)?;
    Ok(Some(made))
}

/// Returns a plan and two more parts, with calls if the first of them is of offers.
fn made_of_four<'p>(
    alloc: Global,
    limits: Limits,
    planned: bool,
    domain: &[u8],
    streams: &'p [u8],
    third: &'p [u8],
    fourth: &'p [u8],
) -> Result<Option<Vec<u8>>, Stop>
    ensures ok { IfOk result (λ made. (cycles : ℕ) → (input : List ℕ) →
        made_of_parts limits planned cycles input (domain.now ∷ streams.now ∷ third.now ∷ fourth.now ∷ [])
        ≡ Ok (option_map_or (λ text. text.items) made input)) }
    ensures err { IfErr result (λ stop. (cycles : ℕ) → (input : List ℕ) →
        IsRefused (made_of_parts limits planned cycles input (domain.now ∷ streams.now ∷ third.now ∷ fourth.now ∷ [])) stop) }
{
    if !begins_as_offers(third) {
        return Ok(None);
    }
    let made = with_calls_between(alloc, limits, planned, domain, streams, third, fourth)?;
    Ok(Some(made))
}

/// Returns an input of parts over `cycles` cycles, with the missing parts added; `None` if none is missing.
fn made_of_parts(
    alloc: Global,
    limits: Limits,
    planned: bool,
    cycles: u32,
    parts: &[&[u8]],
) -> Result<Option<Vec<u8>>, Stop>
    ensures ok { IfOk result (λ made. (input : List ℕ) → made_of_parts limits planned cycles input (map (λ part. part.now) parts.now)
        ≡ Ok (option_map_or (λ text. text.items) made input)) }
    ensures err { IfErr result (λ stop. (input : List ℕ) → IsRefused (made_of_parts limits planned cycles input (map (λ part. part.now) parts.now)) stop) }
{
    match *parts {
        [] | [_] => Ok(None),
        [domain, streams] => {
            let made = with_both(alloc, limits, cycles, domain, streams)?;
            Ok(Some(made))
        }
        [domain, streams, third] => {
            made_of_three(alloc, limits, planned, cycles, domain, streams, third)
        }
        [domain, streams, third, fourth] => {
            made_of_four(alloc, limits, planned, domain, streams, third, fourth)
        }
        [_, _, _, _, _, ..] => Ok(None),
    }
}

/// Returns the input of a job, read within some limits, with the missing parts added; `None` if it stays unchanged.
///
/// Only a job that reads a script gets parts. A plan alone gets calls and offers; a plan and a script get offers; a plan and offers, which
/// are recognised by their first line, get calls. Calls admit all streams before cycle 0. Offers are those of the streams with traffic, so
/// early that all arrive.
///
/// # Errors
/// With status 1 and the line of the first fault: of the domain; of the streams; if offers are made or the job reads deadlines, of the first
/// stream whose talker or listeners don't fit, or of the first access link that is full; of the script, or of the first stream
/// that isn't admitted; of the first stream that is refused as by `load`; or `cqf: offers: TooMany`. With status 3 if an allocation fails.
pub fn made_input(
    alloc: Global,
    limits: Limits,
    job: &Job,
    input: &[u8],
) -> Result<Option<Vec<u8>>, Stop>
    ensures ok { IfOk result (λ made. made_for limits job.now input.now ≡ Ok (option_map_or (λ text. text.items) made input.now)) }
    ensures err { IfErr result (IsRefused (made_for limits job.now input.now)) }
{
    let Some(cycles) = cycles_of(job) else {
        return Ok(None);
    };
    let Ok(found) = parts(alloc, input) else {
        return Err(Stop::memory(alloc));
    };
    made_of_parts(alloc, limits, is_planned(job), cycles, found.as_slice())
}
