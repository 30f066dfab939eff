//! The links that words name, by the names of their ends.
ghost use Rattle.std.specs.Prelude.{◌≡◌, [], IfOk, List, MatchOption, find, map, not, option_map, unwrap_or};
ghost use Rattle.cqf_program_words.specs.declared.links.LinkName.{LinkName};
ghost use Rattle.cqf_program_words.specs.Links.{AreLinks, first_no_link, is_link, link_in};

use cqf_units::Name;
use std::alloc::{AllocError, Global};

/// A link, by the names of the nodes at its ends.
#[derive(Clone, Debug, Drop, PartialEq, Eq)]
pub struct LinkName {
    pub from: Name,
    pub to: Name,
}

/// Returns the link that a word `FROM>TO` names. Returns `None` if the word has no `>`, or one of the two texts isn't a name.
pub fn link_named(word: &str) -> Option<LinkName>
    ensures { result ≡ link_in word.now }
{
    let (from, to) = word.split_once('>')?;
    let from = Name::new(from.as_bytes())?;
    let to = Name::new(to.as_bytes())?;
    Some(LinkName { from, to })
}

/// Returns whether the word names a link.
fn is_link(word: &str) -> bool
    ensures { result ≡ is_link word.now }
{
    link_named(word).is_some()
}

/// Returns the links that the words name; `None` if one of them names none. Returns an error if an allocation fails.
fn links_named(alloc: Global, words: &[&str]) -> Result<Option<Vec<LinkName>>, AllocError>
    ensures { IfOk result (λ found. MatchOption found ((links : List LinkName) → ¬ AreLinks (map (λ word. word.now) words.now) links)
        (λ links. AreLinks (map (λ word. word.now) words.now) links.items)) }
{
    let mut links = Vec::new(alloc);
    for word in words {
        let Some(link) = link_named(word) else {
            return Ok(None);
        };
        links.push(link)?;
    }
    Ok(Some(links))
}

/// Returns the links that an option's words name, as [`links_named`] does; no links if the option isn't given.
pub(crate) fn links_given(
    alloc: Global,
    words: Option<&[&str]>,
) -> Result<Option<Vec<LinkName>>, AllocError>
    ensures { IfOk result (λ found. MatchOption found
        ((links : List LinkName) → ¬ AreLinks (unwrap_or (option_map (λ words. map (λ word. word.now) words.now) words.entry) []) links)
        (λ links. AreLinks (unwrap_or (option_map (λ words. map (λ word. word.now) words.now) words.entry) []) links.items)) }
{
    match words {
        Some(words) => links_named(alloc, words),
        None => Ok(Some(Vec::new(alloc))),
    }
}

/// Returns the first of some words that names no link.
fn one_no_link<'w>(words: &[&'w str]) -> Option<&'w str>
    ensures { result ≡ find (λ word. not (is_link word.now)) words.now }
{
    words.iter().copied().find(|word| !is_link(word))
}

/// Returns the first word that names no link.
fn first_among<'w>(words: &[&'w str]) -> Option<&'w str>
    ensures { option_map (λ word. word.now) result ≡ first_no_link (map (λ word. word.now) words.now) }
{
    one_no_link(words)
}

/// Returns the first of an option's words that names no link, if it is given.
pub(crate) fn first_no_link<'w>(words: Option<&[&'w str]>) -> Option<&'w str>
    ensures { option_map (λ word. word.now) result
        ≡ first_no_link (unwrap_or (option_map (λ words. map (λ word. word.now) words.now) words.entry) []) }
{
    match words {
        Some(words) => first_among(words),
        None => None,
    }
}
