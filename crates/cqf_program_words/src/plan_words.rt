//! The options of the command `plan`.
ghost use Rattle.std.specs.Prelude.{◌≡◌, IfOk, List, MatchOption, None, Option, ℕ, codes, option_map};
ghost use Rattle.clap.specs.Words.{first_of, found_of, rows_of};
ghost use Rattle.cqf_program_words.specs.declared.candidates.Candidates.{Candidates};
ghost use Rattle.cqf_program_words.specs.declared.links.LinkName.{LinkName};
ghost use Rattle.cqf_program_words.specs.declared.plan_words.PlanOptions.{PlanOptions};
ghost use Rattle.cqf_program_words.specs.declared.words.Job.{Job};
ghost use Rattle.cqf_program_words.specs.Links.{AreLinks, first_no_link};
ghost use Rattle.cqf_program_words.specs.Texts.{texts_of};
ghost use Rattle.cqf_program_words.specs.Words.{AreGiven, ArePlanOptions, IsJobOf, IsNumberIn};

use crate::candidates::Candidates;
use crate::links::{LinkName, first_no_link, links_given};
use crate::naming::candidates_named;
use crate::options::MOST_TRIES;
use crate::words::{Job, is_given, number_in, text_of};
use clap::ArgMatches;
use std::alloc::{AllocError, Global};

/// The options of `plan`.
#[derive(Clone, Debug, Drop, PartialEq, Eq)]
pub struct PlanOptions {
    /// Whether the output is the table of all candidates for the cycle time, instead of a plan.
    pub table: bool,
    /// The candidates for the cycle time, if they aren't those of the network file.
    pub given: Option<Candidates>,
    /// The most other orders of placing that are tried for each candidate after the order of the file: 0 to 1,000.
    pub tries: u32,
    /// Whether the best of all good candidates is taken, instead of the first.
    pub best: bool,
    /// The links that the plan does without.
    pub without: Vec<LinkName>,
    /// Whether notes on the plan are written even if standard error isn't a terminal.
    pub verbose: bool,
}

/// Returns the candidates of the command with these values, which may have none; `None` if something else is given.
fn given_of(values: &ArgMatches<'_>) -> Option<Option<Candidates>>
    ensures { MatchOption result ((given : Option Candidates) → ¬ AreGiven given (first_of (codes "cycle") (rows_of (found_of values.now))))
        (λ given. AreGiven given (first_of (codes "cycle") (rows_of (found_of values.now)))) }
{
    match text_of(values, "cycle") {
        None => Some(None),
        Some(word) => match candidates_named(word) {
            Some(given) => Some(Some(given)),
            None => None,
        },
    }
}

/// Returns the number of orders to try of the command with these values.
fn tries_of(values: &ArgMatches<'_>) -> Option<u32>
    ensures { MatchOption result ((tries : ℕ) → ¬ IsNumberIn 0 1000 tries (first_of (codes "tries") (rows_of (found_of values.now))))
        (λ tries. IsNumberIn 0 1000 tries (first_of (codes "tries") (rows_of (found_of values.now)))) }
{
    match number_in(text_of(values, "tries"), 0, MOST_TRIES) {
        Some(tries) => Some(tries as u32),
        None => None,
    }
}

/// Returns the first of the words for links to leave out that names no link.
pub(crate) fn first_wrong<'v>(values: &ArgMatches<'v>) -> Option<&'v str>
    ensures { option_map (λ word. word.now) result ≡ first_no_link (texts_of (codes "without") (rows_of (found_of values.now))) }
{
    first_no_link(values.get_strs("without"))
}

/// Returns the links to leave out of the command with these values; `None` if something else is given. Returns an error if an allocation
/// fails.
fn without_of(alloc: Global, values: &ArgMatches<'_>) -> Result<Option<Vec<LinkName>>, AllocError>
    ensures { IfOk result (λ found. MatchOption found
        ((links : List LinkName) → ¬ AreLinks (texts_of (codes "without") (rows_of (found_of values.now))) links)
        (λ links. AreLinks (texts_of (codes "without") (rows_of (found_of values.now))) links.items)) }
{
    links_given(alloc, values.get_strs("without"))
}

/// Returns the options of the command with these values; `None` if one of them is something else. Returns an error if an allocation fails.
fn options_of(alloc: Global, values: &ArgMatches<'_>) -> Result<Option<PlanOptions>, AllocError>
    ensures { IfOk result (λ found. MatchOption found ((options : PlanOptions) → ¬ ArePlanOptions options (rows_of (found_of values.now)))
        (λ options. ArePlanOptions options (rows_of (found_of values.now)))) }
{
    let Some(given) = given_of(values) else {
        return Ok(None);
    };
    let Some(tries) = tries_of(values) else {
        return Ok(None);
    };
    let links = without_of(alloc, values)?;
    let Some(without) = links else {
        return Ok(None);
    };
    Ok(Some(PlanOptions {
        table: is_given(values, "table"),
        given,
        tries,
        best: is_given(values, "best"),
        without,
        verbose: is_given(values, "verbose"),
    }))
}

/// Returns the job of the command `plan` with its values. Returns an error if an allocation fails.
pub(crate) fn plan_job(alloc: Global, values: &ArgMatches<'_>) -> Result<Option<Job>, AllocError>
    ensures { IfOk result (λ found. MatchOption found ((job : Job) → ¬ IsJobOf job (codes "plan") (rows_of (found_of values.now)))
        (λ job. IsJobOf job (codes "plan") (rows_of (found_of values.now)))) }
{
    let found = options_of(alloc, values)?;
    match found {
        Some(options) => Ok(Some(Job::Plan { options })),
        None => Ok(None),
    }
}
