//! The variables of a script, made before it is written.
ghost use Rattle.std.specs.Prelude.{◌≡◌, ◌<◌, ◌++◌, AllPairs, IfOk, OnOk, codes, decimal, length, map};
ghost use Rattle.cqf_lists.specs.ByNumber.{AreListsBy, lists_of};
ghost use Rattle.cqf_model.specs.declared.topology.Row.{Row as ARow};
ghost use Rattle.cqf_program_tc.specs.Taken.{AreTaken};
ghost use Rattle.cqf_program_tc.specs.Variables.{link_variable, numbered, variable_at, word_byte, word_of, word_of_link, word_of_stream};
ghost use Rattle.cqf_topology.specs.NodeNames.{name_of_bridge, name_of_node};

use cqf_model::{Link, Node, Row};
use cqf_topology::Domain;
use cqf_units::Memory;
use std::alloc::Global;
use std::collections::BTreeMap;

/// Returns a byte of a name as it appears in a variable.
fn word_byte(byte: u8) -> u8
    ensures { result ≡ word_byte byte }
{
    if byte == b'-' { b'_' } else { byte }
}

/// Appends a name to a word, as it appears in a variable.
fn push_word(word: &mut Vec<u8>, name: &[u8]) -> Result<(), Memory>
    ensures { OnOk result (word.new.items ≡ word.old.items ++ word_of name.now) }
{
    for byte in name {
        word.push(word_byte(*byte))?;
    }
    Ok(())
}

/// Appends the name of a bridge to a word, likewise; nothing for a bridge that the domain lacks.
fn push_bridge(word: &mut Vec<u8>, domain: &Domain, bridge: u16) -> Result<(), Memory>
    ensures { OnOk result (word.new.items ≡ word.old.items ++ word_of (name_of_bridge domain.now bridge)) }
{
    if bridge < domain.bridges() {
        push_word(word, domain.bridge_name(bridge).as_bytes())?;
    }
    Ok(())
}

/// Appends the name of a station to a word, likewise; nothing for a station that the domain lacks.
fn push_station(word: &mut Vec<u8>, domain: &Domain, station: u16) -> Result<(), Memory>
    ensures { OnOk result (word.new.items ≡ word.old.items ++ word_of (name_of_node domain.now (Node.Station station))) }
{
    if station < domain.stations() {
        push_word(word, domain.station_name(station).as_bytes())?;
    }
    Ok(())
}

/// Appends the name of a node to a word, likewise.
fn push_node(word: &mut Vec<u8>, domain: &Domain, node: Node) -> Result<(), Memory>
    ensures { OnOk result (word.new.items ≡ word.old.items ++ word_of (name_of_node domain.now node)) }
{
    match node {
        Node::Bridge(bridge) => push_bridge(word, domain, bridge)?,
        Node::Station(station) => push_station(word, domain, station)?,
    }
    Ok(())
}

/// Returns the word of a link.
fn link_word(alloc: Global, domain: &Domain, link: Link) -> Result<Vec<u8>, Memory>
    ensures { IfOk result (λ word. word.items ≡ word_of_link domain.now link) }
{
    let mut word = Vec::new(alloc);
    push_bridge(&mut word, domain, link.from)?;
    word.push(b'_')?;
    push_node(&mut word, domain, link.to)?;
    Ok(word)
}

/// Returns the words of a domain's links, by number.
fn link_words(alloc: Global, domain: &Domain) -> Result<Vec<Vec<u8>>, Memory>
    ensures { IfOk result (λ words. lists_of words.items ≡ map (word_of_link domain.now) domain.now.links) }
{
    let mut words = Vec::new(alloc);
    for link in 0..domain.links() {
        let word = link_word(alloc, domain, domain.link(link))?;
        words.push(word)?;
    }
    Ok(words)
}

/// Returns the word of a stream.
fn stream_word(alloc: Global, row: &Row) -> Result<Vec<u8>, Memory>
    ensures { IfOk result (λ word. word.items ≡ word_of row.now.name) }
{
    let mut word = Vec::new(alloc);
    push_word(&mut word, row.name.as_bytes())?;
    Ok(word)
}

/// Returns the words of the rows' streams, by index.
fn stream_words(alloc: Global, rows: &[Row]) -> Result<Vec<Vec<u8>>, Memory>
    ensures { IfOk result (λ words. lists_of words.items ≡ map word_of_stream rows.now) }
{
    let mut words = Vec::new(alloc);
    for index in 0..rows.len() {
        let word = stream_word(alloc, &rows[index])?;
        words.push(word)?;
    }
    Ok(words)
}

/// Returns which of these words occur earlier in the list. Words are found by an ordered search, so that no choice of words makes it slow.
fn are_taken(alloc: Global, words: &[Vec<u8>]) -> Result<Vec<bool>, Memory>
    ensures { IfOk result (λ taken. AreTaken (lists_of words.now) taken.items) }
{
    let mut indices = BTreeMap::new(alloc);
    let mut taken = Vec::new(alloc);
    for index in 0..words.len() {
        let word = words[index].as_slice();
        if indices.contains_key(word) {
            taken.push(true)?;
            continue;
        }
        indices.insert(word, index)?;
        taken.push(false)?;
    }
    Ok(taken)
}

/// Appends a number to a word.
fn push_number(alloc: Global, word: &mut Vec<u8>, number: u32) -> Result<(), Memory>
    ensures { OnOk result (word.new.items ≡ word.old.items ++ (codes "_N" ++ decimal number)) }
{
    let end = format!(in alloc; "_N{number}")?;
    word.extend_from_slice(end.as_bytes())?;
    Ok(())
}

/// Returns a word as a variable, followed by its number if the word is taken.
fn numbered(alloc: Global, word: &[u8], is_taken: bool, number: u32) -> Result<Vec<u8>, Memory>
    ensures { IfOk result (λ variable. variable.items ≡ numbered word.now is_taken number) }
{
    let mut variable = Vec::from_slice(alloc, word)?;
    if is_taken {
        push_number(alloc, &mut variable, number)?;
    }
    Ok(variable)
}

/// Returns the variables of a domain's links by number. The time grows with the number of links and its logarithm.
pub(crate) fn link_variables(alloc: Global, domain: &Domain) -> Result<Vec<Vec<u8>>, Memory>
    ensures { IfOk result (λ variables. AreListsBy (link_variable domain.now) (length domain.now.links) (lists_of variables.items)) }
{
    let made = link_words(alloc, domain)?;
    let words = made.as_slice();
    let noted = are_taken(alloc, words)?;
    let taken = noted.as_slice();
    let mut variables = Vec::new(alloc);
    for link in 0..domain.links() {
        let index = usize::from(link);
        let variable = numbered(
            alloc,
            words[index].as_slice(),
            taken[index],
            u32::from(link),
        )?;
        variables.push(variable)?;
    }
    Ok(variables)
}

/// Returns the variables of the streams of rows by index, likewise. The rows' numbers ascend.
pub(crate) fn stream_variables(alloc: Global, rows: &[Row]) -> Result<Vec<Vec<u8>>, Memory>
    requires { AllPairs (λ (a b : ARow). a.no < b.no) rows.now }
    ensures { IfOk result (λ variables. AreListsBy (variable_at rows.now) (length rows.now) (lists_of variables.items)) }
{
    let made = stream_words(alloc, rows)?;
    let words = made.as_slice();
    let noted = are_taken(alloc, words)?;
    let taken = noted.as_slice();
    let mut variables = Vec::new(alloc);
    for index in 0..rows.len() {
        let variable = numbered(alloc, words[index].as_slice(), taken[index], rows[index].no)?;
        variables.push(variable)?;
    }
    Ok(variables)
}
