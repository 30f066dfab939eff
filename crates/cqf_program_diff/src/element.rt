//! An element of a network, or a figure of one, as it is compared.
ghost use Rattle.std.specs.Prelude.{◌≡◌, [], map, slice_index_or, string_bytes};
ghost use Rattle.cqf_program_diff.specs.Changes.{is_named, value_of};

use std::marker::Model;

/// An element of a network, or a figure of one: the name by which it is found in the other network, and the texts of its values.
#[derive(Debug, Drop)]
pub(crate) struct Element {
    name: String,
    values: Vec<String>,
}

impl Model for Element {
    ghost use Rattle.std.specs.Prelude.{map, string_bytes};
    ghost use Rattle.cqf_program_diff.specs.Element.{ElementText};

    ghost Value = { ElementText };

    ghost view = { λ e. record { name = string_bytes e.name; values = map string_bytes e.values.items } };
}

impl Element {
    /// Returns the element with this name and these values.
    pub(crate) fn new(name: String, values: Vec<String>) -> Element
        ensures { result ≡ record { name = string_bytes name; values = map string_bytes values.items } }
    {
        Element { name, values }
    }

    /// Returns the name.
    pub(crate) fn name(&self) -> &str
        ensures { result.now ≡ self.now.name }
    {
        self.name.as_str()
    }

    /// Returns whether this is its name.
    pub(crate) fn is_named(&self, name: &str) -> bool
        ensures { result ≡ is_named name.now self.now }
    {
        self.name.as_str() == name
    }

    /// Returns the value at an index; an empty text if there is none.
    pub(crate) fn value(&self, index: usize) -> &str
        ensures { result.now ≡ value_of self.now index }
    {
        match self.values.get(index) {
            Some(value) => value.as_str(),
            None => "",
        }
    }
}
