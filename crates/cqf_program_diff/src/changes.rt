//! What differs between two lists of elements.
ghost use Rattle.std.specs.Prelude.{◌≡◌, ◌++◌, IfOk, find, option_copied, string_bytes};
ghost use Rattle.std.specs.List.{flat_map, list_any};
ghost use Rattle.cqf_program_diff.specs.Changes.{addition_of, change_of, changes, is_named};

use crate::element::Element;
use crate::forms::Form;
use cqf_units::Memory;
use std::alloc::Global;

/// Returns the first element with a name.
fn find_named<'e>(elements: &'e [Element], name: &str) -> Option<&'e Element>
    ensures { option_copied result ≡ find (is_named name.now) elements.now }
{
    elements.iter().find(|element| element.is_named(name))
}

/// Returns whether an element has the name.
fn has_named(elements: &[Element], name: &str) -> bool
    ensures { result ≡ list_any (is_named name.now) elements.now }
{
    elements.iter().any(|element| element.is_named(name))
}

/// Returns the lines of an element of the first network, compared with the elements of the second.
fn change_of(
    alloc: Global,
    form: Form,
    afters: &[Element],
    before: &Element,
) -> Result<String, Memory>
    ensures { IfOk result (λ text. string_bytes text ≡ change_of form afters.now before.now) }
{
    match find_named(afters, before.name()) {
        Some(after) => form.changed(alloc, before, after),
        None => form.removed(alloc, before),
    }
}

/// Returns the line of an element of the second network if the first doesn't have it, or else an empty text.
fn addition_of(
    alloc: Global,
    form: Form,
    befores: &[Element],
    after: &Element,
) -> Result<String, Memory>
    ensures { IfOk result (λ line. string_bytes line ≡ addition_of form befores.now after.now) }
{
    if has_named(befores, after.name()) {
        return Ok(String::new(alloc));
    }
    form.added(alloc, after)
}

/// Returns the lines of all elements of the first network.
fn changed_lines(
    alloc: Global,
    form: Form,
    befores: &[Element],
    afters: &[Element],
) -> Result<String, Memory>
    ensures { IfOk result (λ text. string_bytes text ≡ flat_map (change_of form afters.now) befores.now) }
{
    let mut text = String::new(alloc);
    for before in befores {
        let lines = change_of(alloc, form, afters, before)?;
        text.push_str(lines.as_str())?;
    }
    Ok(text)
}

/// Returns the lines of the elements that only the second network has.
fn added_lines(
    alloc: Global,
    form: Form,
    befores: &[Element],
    afters: &[Element],
) -> Result<String, Memory>
    ensures { IfOk result (λ text. string_bytes text ≡ flat_map (addition_of form befores.now) afters.now) }
{
    let mut text = String::new(alloc);
    for after in afters {
        let line = addition_of(alloc, form, befores, after)?;
        text.push_str(line.as_str())?;
    }
    Ok(text)
}

/// Returns the lines of a table: those of the elements of the first network, in its order, and then those of the elements that only the
/// second has.
///
/// # Errors
/// `Memory` if an allocation fails.
pub(crate) fn changes(
    alloc: Global,
    form: Form,
    befores: &[Element],
    afters: &[Element],
) -> Result<String, Memory>
    ensures { IfOk result (λ text. string_bytes text ≡ changes form befores.now afters.now) }
{
    let mut text = changed_lines(alloc, form, befores, afters)?;
    let added = added_lines(alloc, form, befores, afters)?;
    text.push_str(added.as_str())?;
    Ok(text)
}
