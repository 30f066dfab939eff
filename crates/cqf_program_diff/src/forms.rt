//! The forms of tables, and the lines of an element in them.
ghost use Rattle.std.specs.Prelude.{◌≡◌, ◌&&◌, [], IfOk, bytes_eq, codes, if◌then◌else◌, string_bytes};
ghost use Rattle.cqf_program_diff.specs.Changes.{added_line, changed_figure, changed_lines, changed_value, changed_values, figure_line, is_same_figure, property_line, removed_line, value_of};

use crate::element::Element;
use crate::kinds::Kind;
use cqf_units::Memory;
use std::alloc::Global;

/// What the lines of a table say.
#[derive(Clone, Copy, Debug, PartialEq, Eq)]
pub(crate) enum Form {
    /// Of elements of a kind the value at each key that differs.
    Properties(Kind),
    /// Of figures both of their values.
    Figures,
}

/// Returns a line about an element: its kind, its name, what differs, and what it was and is.
fn property_line(
    alloc: Global,
    kind: Kind,
    name: &str,
    what: &str,
    before: &str,
    after: &str,
) -> Result<String, Memory>
    ensures { IfOk result (λ line. string_bytes line ≡ property_line kind name.now what.now before.now after.now) }
{
    let kind = kind.name();
    let line = format!(in alloc; "{kind},{name},{what},{before},{after}\n")?;
    Ok(line)
}

/// Returns the line of a value if it differs, or else an empty text.
fn changed_value(
    alloc: Global,
    kind: Kind,
    name: &str,
    what: &str,
    before: &str,
    after: &str,
) -> Result<String, Memory>
    ensures { IfOk result (λ line. string_bytes line ≡ changed_value kind name.now what.now before.now after.now) }
{
    if before == after {
        return Ok(String::new(alloc));
    }
    property_line(alloc, kind, name, what, before, after)
}

/// Returns the lines of an element that both networks have: one for each key whose value differs.
#[tactic(auto, using(crate::proofs::Steps::each_more))]
fn changed_values(
    alloc: Global,
    kind: Kind,
    before: &Element,
    after: &Element,
) -> Result<String, Memory>
    ensures { IfOk result (λ text. string_bytes text ≡ changed_values kind before.now after.now) }
{
    let mut text = String::new(alloc);
    for index in 0..kind.count() {
        let (old, new) = (before.value(index), after.value(index));
        let line = changed_value(alloc, kind, before.name(), kind.key(index), old, new)?;
        text.push_str(line.as_str())?;
    }
    Ok(text)
}

/// Returns a line about a figure: its name, what it was and is, and what is left.
fn figure_line(
    alloc: Global,
    name: &str,
    before: &str,
    after: &str,
    left: &str,
) -> Result<String, Memory>
    ensures { IfOk result (λ line. string_bytes line ≡ figure_line name.now before.now after.now left.now) }
{
    let line = format!(in alloc; "{name},{before},{after},{left}\n")?;
    Ok(line)
}

/// Returns whether a figure and what is left are the same in both networks.
fn is_same_figure(before: &Element, after: &Element) -> bool
    ensures { result ≡ is_same_figure before.now after.now }
{
    if before.value(0) != after.value(0) {
        return false;
    }
    before.value(1) == after.value(1)
}

/// Returns the line of a figure that both networks have, if it or what is left differs; or else an empty text.
fn changed_figure(alloc: Global, before: &Element, after: &Element) -> Result<String, Memory>
    ensures { IfOk result (λ line. string_bytes line ≡ changed_figure before.now after.now) }
{
    if is_same_figure(before, after) {
        return Ok(String::new(alloc));
    }
    figure_line(
        alloc,
        before.name(),
        before.value(0),
        after.value(0),
        after.value(1),
    )
}

impl Form {
    /// Returns the lines of an element that both networks have.
    pub(crate) fn changed(
        self,
        alloc: Global,
        before: &Element,
        after: &Element,
    ) -> Result<String, Memory>
        ensures { IfOk result (λ text. string_bytes text ≡ changed_lines self before.now after.now) }
    {
        match self {
            Form::Properties(kind) => changed_values(alloc, kind, before, after),
            Form::Figures => changed_figure(alloc, before, after),
        }
    }

    /// Returns the line of an element that only the first network has.
    pub(crate) fn removed(self, alloc: Global, before: &Element) -> Result<String, Memory>
        ensures { IfOk result (λ line. string_bytes line ≡ removed_line self before.now) }
    {
        match self {
            Form::Properties(kind) => property_line(alloc, kind, before.name(), "removed", "", ""),
            Form::Figures => figure_line(alloc, before.name(), before.value(0), "", ""),
        }
    }

    /// Returns the line of an element that only the second network has.
    pub(crate) fn added(self, alloc: Global, after: &Element) -> Result<String, Memory>
        ensures { IfOk result (λ line. string_bytes line ≡ added_line self after.now) }
    {
        match self {
            Form::Properties(kind) => property_line(alloc, kind, after.name(), "added", "", ""),
            Form::Figures => figure_line(alloc, after.name(), "", after.value(0), after.value(1)),
        }
    }
}
