//! The candidates for a cycle time that a word names.
ghost use Rattle.std.specs.Prelude.{◌≡◌, IfSome, MatchOption, true};
ghost use Rattle.std.specs.Char.{is_ascii_digit};
ghost use Rattle.std.specs.List.{list_all};
ghost use Rattle.clap.specs.Words.{Text};
ghost use Rattle.cqf_text.specs.Decimal.{is_decimal};
ghost use Rattle.cqf_program_words.specs.declared.candidates.Candidates.{Candidates};
ghost use Rattle.cqf_program_words.specs.Candidates.{AreFromTo, AreNamed, cycle_time_in, range_word, step_in};

use crate::Candidates;
use cqf_model::LONGEST_CYCLE;
use cqf_text::read_decimal;

/// The shortest cycle, in nanoseconds.
const SHORTEST_CYCLE: u64 = 10_000;

/// The most candidates that a word may name.
const MOST_CANDIDATES: u64 = 1_000;

/// Returns the cycle time that a text writes, in nanoseconds.
fn cycle_time_in(text: &str) -> Option<u32>
    ensures { result ≡ cycle_time_in text.now }
{
    match read_decimal(text.as_bytes(), SHORTEST_CYCLE, u64::from(LONGEST_CYCLE)) {
        Some(cycle) => Some(cycle as u32),
        None => None,
    }
}

/// Returns whether all of the bytes are digits.
fn are_digits(bytes: &[u8]) -> bool
    ensures { result ≡ list_all is_ascii_digit bytes.now }
{
    bytes.iter().all(|byte| byte.is_ascii_digit())
}

/// Returns whether the text is a number of one to twenty digits.
fn is_decimal(text: &str) -> bool
    ensures { result ≡ is_decimal text.now }
{
    let digits = text.as_bytes();
    if digits.is_empty() {
        return false;
    }
    if digits.len() > 20 {
        return false;
    }
    are_digits(digits)
}

/// Returns the step that a text writes, in nanoseconds; a step above the longest cycle counts as the longest cycle.
fn step_in(text: &str) -> Option<u32>
    ensures { result ≡ step_in text.now }
{
    if !is_decimal(text) {
        return None;
    }
    match read_decimal(text.as_bytes(), 0, u64::from(LONGEST_CYCLE)) {
        Some(0) => None,
        Some(step) => Some(step as u32),
        None => Some(LONGEST_CYCLE),
    }
}

/// Returns the three texts of a word `FROM..TO/STEP`, cut at the first dot and at the first slash after the two dots.
fn split_range(word: &str) -> Option<(&str, &str, &str)>
    ensures cut { IfSome result (λ p. word.now ≡ range_word p.0.now p.1.now p.2.now) }
    ensures whole { (from to step : Text) → word.now ≡ range_word from to step → list_all is_ascii_digit from ≡ true → list_all is_ascii_digit to ≡ true
        → MatchOption result ⊥ (λ p. (p.0.now ≡ from) × (p.1.now ≡ to) × (p.2.now ≡ step)) }
{
    let (from, following) = word.split_once('.')?;
    let others = following.strip_prefix('.')?;
    let (to, step) = others.split_once('/')?;
    Some((from, to, step))
}

/// Returns candidates by the texts of the first, the last and the step.
fn candidates_between(from: &str, to: &str, step: &str) -> Option<Candidates>
    ensures { MatchOption result ((c : Candidates) → ¬ AreFromTo from.now to.now step.now c) (AreFromTo from.now to.now step.now) }
{
    let first = cycle_time_in(from)?;
    let last = cycle_time_in(to)?;
    let step = step_in(step)?;
    if first > last {
        return None;
    }
    if u64::from(last) >= u64::from(first) + MOST_CANDIDATES * u64::from(step) {
        return None;
    }
    Some(Candidates { first, last, step })
}

/// Returns the candidates that a word names: `N` for one cycle time, or `FROM..TO/STEP` for `FROM`, `FROM + STEP`, .. up to `TO`. Returns
/// `None` if the word is anything else, if a cycle time isn't 10,000 to 10,000,000, if `TO` is below `FROM` or `STEP` is 0, or if there are
/// more than 1,000.
pub fn candidates_named(word: &str) -> Option<Candidates>
    ensures { MatchOption result ((c : Candidates) → ¬ AreNamed word.now c) (AreNamed word.now) }
{
    match split_range(word) {
        Some((from, to, step)) => candidates_between(from, to, step),
        None => candidates_between(word, word, "1"),
    }
}
