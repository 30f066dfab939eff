//! The files of a plan, checked and joined.
ghost use Rattle.std.specs.Prelude.{◌≡◌, ◌≤◌, ◌++◌, IfOk, IfErr, None, OnOk, length, map, option_map, string_bytes, take};
ghost use Rattle.toml.specs.View.{table_view};
ghost use Rattle.cqf_output.specs.Stops.{EndsWith};
ghost use Rattle.cqf_program_files.specs.Keys.{strange_key};
ghost use Rattle.cqf_program_files.specs.Opening.{count_of_network, count_of_plain, open_refusal, open_refusal_of};
ghost use Rattle.cqf_program_files.specs.Files.{EndsBy, EndsFiles, EndsTogether, EndsUnwritten, IsCheckedJoint, IsNetworkText, IsTextOf};
ghost use Rattle.cqf_program_files.specs.Files.{alone_refusal, first_long_among, first_refusal, first_strange_among, is_plain, joint_refusal, most_shown};
ghost use Rattle.cqf_program_files.specs.Files.{plain_fault, files_fault_line};
ghost use Rattle.cqf_program_files.specs.Files.{shown_key, shown_octet, strange_in, table_of, tables_of, tables_refusal, texts_refusal, toml_text, toml_texts};

use crate::faults::FilesFault;
use crate::joining::{are_several, joint_of, key_twice, leading};
use crate::keys::strange_key;
use crate::lines::first_long_line;
use crate::open::{first_open_stream, has_open_cycle};
use cqf_output::Stop;
use cqf_program_words::{is_toml, is_undivided};
use cqf_units::Memory;
use std::alloc::{AllocError, Global};
use toml::Table;

/// The most octets of a key that a line shows.
const MOST_SHOWN: usize = 64;

/// Returns the table of a text; `None` if it isn't TOML. Returns `Memory` if an allocation fails.
fn table_of(alloc: Global, text: &[u8]) -> Result<Option<Table>, Memory>
    ensures { IfOk result (λ table. option_map table_view table ≡ table_of text.now) }
{
    match toml::table_from_slice(alloc, text) {
        Ok(table) => Ok(Some(table)),
        Err(error) => {
            if error.is_memory() {
                Err(AllocError)
            } else {
                Ok(None)
            }
        }
    }
}

/// Returns the tables of some texts; `None` if one isn't TOML. Returns `Memory` if an allocation fails.
pub fn tables_of(alloc: Global, texts: &[&[u8]]) -> Result<Option<Vec<Table>>, Memory>
    ensures { IfOk result (λ tables. option_map (λ tables. map table_view tables.items) tables ≡ tables_of (map (λ text. text.now) texts.now)) }
{
    let mut tables = Vec::new(alloc);
    for text in texts {
        let Some(table) = table_of(alloc, text)? else {
            return Ok(None);
        };
        tables.push(table)?;
    }
    Ok(Some(tables))
}

/// Returns an octet of a key as a line shows it: `?` if it isn't a printable one of ASCII.
fn shown_octet(octet: u8) -> u8
    ensures { result ≡ shown_octet octet }
{
    if 33 <= octet && octet <= 126 {
        octet
    } else {
        b'?'
    }
}

/// Returns the octets of a key that a line shows.
fn shown_front(octets: &[u8]) -> &[u8]
    ensures { result.now ≡ take most_shown octets.now }
{
    if octets.len() <= MOST_SHOWN {
        octets
    } else {
        &octets[..MOST_SHOWN]
    }
}

/// Returns octets as a line shows them. Returns `Memory` if an allocation fails.
fn shown(alloc: Global, octets: &[u8]) -> Result<String, Memory>
    ensures { IfOk result (λ shown. string_bytes shown ≡ map shown_octet octets.now) }
{
    let mut text = String::new(alloc);
    for octet in octets {
        text.push(char::from(shown_octet(*octet)))?;
    }
    Ok(text)
}

/// Returns a key as a line shows it. Returns `Memory` if an allocation fails.
fn shown_key(alloc: Global, key: &str) -> Result<String, Memory>
    ensures { IfOk result (λ shown. string_bytes shown ≡ shown_key key.now) }
{
    let mut text = shown(alloc, shown_front(key.as_bytes()))?;
    if key.len() > MOST_SHOWN {
        text.push_str("..")?;
    }
    Ok(text)
}

/// Appends the text of a file to others if its name is that of a TOML file. Returns `Memory` if an allocation fails.
fn put_toml<'t>(found: &mut Vec<&'t [u8]>, name: &str, text: &'t [u8]) -> Result<(), Memory>
    ensures { OnOk result (map (λ text. text.now) found.new.items ≡ map (λ text. text.now) found.old.items ++ toml_text name.now text.now) }
{
    if is_toml(name) {
        found.push(text)?;
    }
    Ok(())
}

/// Returns the texts of the files whose names are those of TOML files. Returns `Memory` if an allocation fails.
fn toml_texts<'t>(
    alloc: Global,
    names: &[&str],
    texts: &[&'t [u8]],
) -> Result<Vec<&'t [u8]>, Memory>
    requires { length names.now ≡ length texts.now }
    ensures { IfOk result (λ found. map (λ text. text.now) found.items
        ≡ toml_texts (map (λ name. name.now) names.now) (map (λ text. text.now) texts.now)) }
{
    let mut found = Vec::new(alloc);
    for position in 0..names.len() {
        put_toml(&mut found, names[position], texts[position])?;
    }
    Ok(found)
}

/// Returns the number of the first line that is too long, in the first text that has one.
fn first_long_among(texts: &[&[u8]]) -> Option<u64>
    ensures { result ≡ first_long_among (map (λ text. text.now) texts.now) }
{
    for text in texts {
        let line = first_long_line(true, text);
        if line.is_some() {
            return line;
        }
    }
    None
}

/// Returns the first key of a text that no command knows, as a line shows it; `None` if the text isn't TOML. Returns `Memory` if an
/// allocation fails.
fn strange_in(alloc: Global, text: &[u8]) -> Result<Option<String>, Memory>
    ensures { IfOk result (λ shown. option_map string_bytes shown ≡ option_map shown_key (strange_in text.now)) }
{
    let Some(table) = table_of(alloc, text)? else {
        return Ok(None);
    };
    let Some(key) = strange_key(&table) else {
        return Ok(None);
    };
    let shown = shown_key(alloc, key)?;
    Ok(Some(shown))
}

/// Returns such a key of the first text that has one. Returns `Memory` if an allocation fails.
fn first_strange_among(alloc: Global, texts: &[&[u8]]) -> Result<Option<String>, Memory>
    ensures { IfOk result (λ shown. option_map string_bytes shown ≡ option_map shown_key (first_strange_among (map (λ text. text.now) texts.now))) }
{
    for text in texts {
        if let Some(shown) = strange_in(alloc, text)? {
            return Ok(Some(shown));
        }
    }
    Ok(None)
}

/// Returns the fault of a plan's texts by themselves, if there is one. Returns `Memory` if an allocation fails.
fn texts_refusal(alloc: Global, texts: &[&[u8]]) -> Result<Option<FilesFault>, Memory>
    ensures { IfOk result (λ found. option_map files_fault_line found ≡ texts_refusal (map (λ text. text.now) texts.now)) }
{
    if let Some(line) = first_long_among(texts) {
        return Ok(Some(FilesFault::LineTooLong(line)));
    }
    match first_strange_among(alloc, texts)? {
        Some(key) => Ok(Some(FilesFault::UnknownKey(key))),
        None => Ok(None),
    }
}

/// Returns the fault of one text by itself, if there is one; the octets of its lines don't count. Returns `Memory` if an allocation fails.
fn plain_fault(alloc: Global, text: &[u8]) -> Result<Option<FilesFault>, Memory>
    ensures { IfOk result (λ found. option_map files_fault_line found ≡ plain_fault text.now) }
{
    if let Some(line) = first_long_line(false, text) {
        return Ok(Some(FilesFault::LineTooLong(line)));
    }
    match strange_in(alloc, text)? {
        Some(key) => Ok(Some(FilesFault::UnknownKey(key))),
        None => Ok(None),
    }
}

/// Returns whether a first text is that of a domain or a plan by itself, though its name doesn't say so: no line divides it. Returns
/// `Memory` if an allocation fails.
fn is_plain(alloc: Global, name: &str, text: &[u8]) -> Result<bool, Memory>
    ensures { IfOk result (λ plain. plain ≡ is_plain name.now text.now) }
{
    if is_toml(name) {
        return Ok(false);
    }
    is_undivided(alloc, text)
}

/// Returns the fault of the first text by itself, if it is such a text and has one. Returns `Memory` if an allocation fails.
fn first_refusal(
    alloc: Global,
    names: &[&str],
    texts: &[&[u8]],
) -> Result<Option<FilesFault>, Memory>
    ensures { IfOk result (λ found. option_map files_fault_line found
        ≡ first_refusal (map (λ name. name.now) names.now) (map (λ text. text.now) texts.now)) }
{
    match (names, texts) {
        ([name, ..], [text, ..]) => {
            if !is_plain(alloc, name, text)? {
                return Ok(None);
            }
            plain_fault(alloc, text)
        }
        _ => Ok(None),
    }
}

/// Returns the fault of several tables that are one plan, if there is one.
fn tables_refusal(tables: &[Table]) -> Option<FilesFault>
    ensures { option_map files_fault_line result ≡ tables_refusal (map table_view tables.now) }
{
    match key_twice(tables) {
        Some(key) => Some(FilesFault::KeyTwice(key)),
        None => None,
    }
}

/// Returns the end if a plan's files are refused: status 1 and the fault's line; status 3 if an allocation for it fails.
pub(crate) fn stop_of(alloc: Global, fault: &FilesFault) -> Stop
    ensures { EndsWith 1 (files_fault_line fault.now) result }
{
    match fault {
        FilesFault::NotToml => Stop::refused(alloc, "domain", fault),
        FilesFault::NoHeader => Stop::refused(alloc, "offers", fault),
        FilesFault::OpenCycle | FilesFault::Open(_) => Stop::refused(alloc, "network", fault),
        _ => Stop::refused(alloc, "plant", fault),
    }
}

/// Returns the text of a table. Returns `Err` if the table has a date that no text writes, or if an allocation fails.
fn text_of(alloc: Global, joint: &Table) -> Result<String, Stop>
    ensures ok { IfOk result (λ text. IsTextOf (table_view joint.now) (string_bytes text)) }
    ensures err { IfErr result (EndsUnwritten (table_view joint.now)) }
{
    match toml::table_to_string(alloc, joint) {
        Ok(text) => Ok(text),
        Err(toml::ser::Error::DateInvalid) => Err(stop_of(alloc, &FilesFault::NotToml)),
        Err(toml::ser::Error::OutOfMemory) => Err(Stop::memory(alloc)),
    }
}

/// Returns the text of the plan of several texts. Returns `Err` if they are refused, or if an allocation fails.
fn joined(alloc: Global, texts: &[&[u8]]) -> Result<String, Stop>
    ensures sound { OnOk result (joint_refusal (tables_of (map (λ text. text.now) texts.now)) ≡ None) }
    ensures ok { IfOk result (λ text. IsNetworkText (map (λ text. text.now) texts.now) (string_bytes text)) }
    ensures err { IfErr result (EndsTogether (map (λ text. text.now) texts.now)) }
{
    let tables = match tables_of(alloc, texts) {
        Ok(Some(tables)) => tables,
        Ok(None) => return Err(stop_of(alloc, &FilesFault::NotToml)),
        Err(_) => return Err(Stop::memory(alloc)),
    };
    if let Some(fault) = tables_refusal(tables.as_slice()) {
        return Err(stop_of(alloc, &fault));
    }
    match joint_of(alloc, tables.as_slice()) {
        Ok(joint) => text_of(alloc, &joint),
        Err(_) => Err(Stop::memory(alloc)),
    }
}

/// Checks each text of the TOML files by itself. Returns `Err` if one is refused, or if an allocation fails.
fn check_texts(alloc: Global, names: &[&str], texts: &[&[u8]]) -> Result<(), Stop>
    requires { length names.now ≡ length texts.now }
    ensures ok { OnOk result (texts_refusal (toml_texts (map (λ name. name.now) names.now) (map (λ text. text.now) texts.now)) ≡ None) }
    ensures err { IfErr result (EndsBy (texts_refusal (toml_texts (map (λ name. name.now) names.now) (map (λ text. text.now) texts.now)))) }
{
    let Ok(found) = toml_texts(alloc, names, texts) else {
        return Err(Stop::memory(alloc));
    };
    match texts_refusal(alloc, found.as_slice()) {
        Ok(None) => Ok(()),
        Ok(Some(fault)) => Err(stop_of(alloc, &fault)),
        Err(_) => Err(Stop::memory(alloc)),
    }
}

/// Checks the first text by itself. Returns `Err` if it is refused, or if an allocation fails.
fn check_first(alloc: Global, names: &[&str], texts: &[&[u8]]) -> Result<(), Stop>
    ensures ok { OnOk result (first_refusal (map (λ name. name.now) names.now) (map (λ text. text.now) texts.now) ≡ None) }
    ensures err { IfErr result (EndsBy (first_refusal (map (λ name. name.now) names.now) (map (λ text. text.now) texts.now))) }
{
    match first_refusal(alloc, names, texts) {
        Ok(None) => Ok(()),
        Ok(Some(fault)) => Err(stop_of(alloc, &fault)),
        Err(_) => Err(Stop::memory(alloc)),
    }
}

/// Checks a file that is a network by itself. Returns `Err` if it is refused, or if an allocation fails.
pub(crate) fn check_alone(alloc: Global, names: &[&str], texts: &[&[u8]]) -> Result<(), Stop>
    requires { length names.now ≡ length texts.now }
    ensures ok { OnOk result (alone_refusal (map (λ name. name.now) names.now) (map (λ text. text.now) texts.now) ≡ None) }
    ensures err { IfErr result (EndsBy (alone_refusal (map (λ name. name.now) names.now) (map (λ text. text.now) texts.now))) }
{
    check_texts(alloc, names, texts)?;
    check_first(alloc, names, texts)
}

/// Checks the files of a plan, and returns the text of their one plan if the first of them are 2 to 16 TOML files. Returns `Err` with
/// status 1 and the line of the first fault; with status 3 if an allocation fails.
pub(crate) fn check_joint(
    alloc: Global,
    names: &[&str],
    texts: &[&[u8]],
) -> Result<Option<String>, Stop>
    requires { length names.now ≡ length texts.now }
    ensures ok { IfOk result (λ text. IsCheckedJoint (map (λ name. name.now) names.now) (map (λ text. text.now) texts.now) (option_map string_bytes text)) }
    ensures err { IfErr result (EndsFiles (map (λ name. name.now) names.now) (map (λ text. text.now) texts.now)) }
{
    check_texts(alloc, names, texts)?;
    check_first(alloc, names, texts)?;
    if !are_several(names) {
        return Ok(None);
    }
    match joined(alloc, &texts[..leading(names)]) {
        Ok(text) => Ok(Some(text)),
        Err(stop) => Err(stop),
    }
}

/// Returns what is open in a network's tables, as a fault; `None` if nothing is. Returns `Memory` if an allocation fails.
fn open_fault(alloc: Global, tables: &[Table]) -> Result<Option<FilesFault>, Memory>
    ensures { IfOk result (λ found. option_map files_fault_line found ≡ open_refusal (map table_view tables.now)) }
{
    if has_open_cycle(tables) {
        return Ok(Some(FilesFault::OpenCycle));
    }
    match first_open_stream(tables) {
        Some(name) => {
            let shown = shown_key(alloc, name)?;
            Ok(Some(FilesFault::Open(shown)))
        }
        None => Ok(None),
    }
}

/// Returns how many of the first texts are a network's, if none is that of a TOML file: 1 if no line divides the first text, else 0. Returns
/// `Memory` if an allocation fails.
fn count_of_plain(alloc: Global, names: &[&str], texts: &[&[u8]]) -> Result<usize, Memory>
    ensures value { IfOk result (λ count. count ≡ count_of_plain (map (λ name. name.now) names.now) (map (λ text. text.now) texts.now)) }
    ensures inside { IfOk result (λ count. count ≤ length texts.now) }
{
    match (names, texts) {
        ([name, ..], [text, ..]) => {
            if is_plain(alloc, name, text)? {
                Ok(1)
            } else {
                Ok(0)
            }
        }
        _ => Ok(0),
    }
}

/// Returns how many of the first texts are a network's: those of the TOML files that come first; or, if none comes first, 1 if no line
/// divides the first text, else 0. Returns `Memory` if an allocation fails.
fn count_of_network(alloc: Global, names: &[&str], texts: &[&[u8]]) -> Result<usize, Memory>
    requires { length names.now ≡ length texts.now }
    ensures value { IfOk result (λ count. count ≡ count_of_network (map (λ name. name.now) names.now) (map (λ text. text.now) texts.now)) }
    ensures inside { IfOk result (λ count. count ≤ length texts.now) }
{
    let count = leading(names);
    if count > 0 {
        return Ok(count);
    }
    count_of_plain(alloc, names, texts)
}

/// Returns what is open in a network's files, as a fault; `None` if nothing is. Returns `Memory` if an allocation fails.
fn open_fault_of(
    alloc: Global,
    names: &[&str],
    texts: &[&[u8]],
) -> Result<Option<FilesFault>, Memory>
    requires { length names.now ≡ length texts.now }
    ensures { IfOk result (λ found. option_map files_fault_line found
        ≡ open_refusal_of (map (λ name. name.now) names.now) (map (λ text. text.now) texts.now)) }
{
    let count = count_of_network(alloc, names, texts)?;
    match tables_of(alloc, &texts[..count])? {
        Some(tables) => open_fault(alloc, tables.as_slice()),
        None => Ok(None),
    }
}

/// Checks that nothing is open in a network's files. Returns `Err` with status 1 and the line of what is open; with status 3 if an
/// allocation fails.
pub(crate) fn check_open(alloc: Global, names: &[&str], texts: &[&[u8]]) -> Result<(), Stop>
    requires { length names.now ≡ length texts.now }
    ensures ok { OnOk result (open_refusal_of (map (λ name. name.now) names.now) (map (λ text. text.now) texts.now) ≡ None) }
    ensures err { IfErr result (EndsBy (open_refusal_of (map (λ name. name.now) names.now) (map (λ text. text.now) texts.now))) }
{
    match open_fault_of(alloc, names, texts) {
        Ok(None) => Ok(()),
        Ok(Some(fault)) => Err(stop_of(alloc, &fault)),
        Err(_) => Err(Stop::memory(alloc)),
    }
}
