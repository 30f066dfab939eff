//! Gate lists as text.
ghost use Rattle.std.specs.Prelude.{◌≡◌, ◌<◌, ◌^◌, ◌++◌, ◌∷◌, [], IfOk, OnOk};
ghost use Rattle.cqf_gates.specs.GateListText.{hex_digit, line_of_gates, text_of_entries};
ghost use Rattle.cqf_gates.specs.TxText.{list_of_text};

use crate::entries::read_entry;
use crate::{TextFault, TxList};
use arrayvec::ArrayVec;
use cqf_text::split_line;
use cqf_units::Memory;
use std::alloc::Global;

/// One entry more than a list can have: after this many, further ones change nothing.
const TOO_MANY: usize = 17;

/// Reads a list: on each line, two hexadecimal digits of either case for the gate states, one space, and the interval
/// as a decimal number up to 4,294,967,295. Returns `BadLine` with the number of the first line that has another form;
/// otherwise `List` with the fault of [`TxList::new`] if the entries don't form a list. An empty text has no line.
pub fn read_tx(text: &[u8]) -> Result<TxList, TextFault>
    ensures { result ≡ list_of_text text.now }
{
    let mut kept: ArrayVec<(u8, u32), 17> = ArrayVec::new();
    let mut number: u64 = 1;
    let mut left = text;
    while let Some((line, following)) = split_line(left) {
        let Some(entry) = read_entry(line) else {
            return Err(TextFault::BadLine(number));
        };
        if kept.len() < TOO_MANY {
            kept.push(entry);
        }
        number += 1;
        left = following;
    }
    match TxList::new(kept.as_slice()) {
        Ok(list) => Ok(list),
        Err(fault) => Err(TextFault::List(fault)),
    }
}

/// Returns the upper case hexadecimal digit of a number below 16.
pub fn hex_digit_of(number: u8) -> u8
    requires { number < 16 }
    ensures { result ≡ hex_digit number }
{
    if number < 10 {
        b'0' + number
    } else {
        b'A' + (number - 10)
    }
}

/// Appends the line of an entry.
fn push_entry(alloc: Global, text: &mut Vec<u8>, states: u8, interval: u32) -> Result<(), Memory>
    ensures line { OnOk result (text.new.items ≡ text.old.items ++ line_of_gates (states, interval) ++ 10 ∷ []) }
    ensures ranges { (states < 256) × (interval < 2 ^ 32) }
{
    let end = format!(in alloc; " {interval}\n")?;
    text.push(hex_digit_of(states / 16))?;
    text.push(hex_digit_of(states % 16))?;
    text.extend_from_slice(end.as_bytes())?;
    Ok(())
}

/// Returns the text that [`read_tx`] reads as this list: for each entry a line with its gate states as two upper case
/// hexadecimal digits, one space, and its interval. Returns `Memory` if an allocation fails.
pub fn write_tx(alloc: Global, list: &TxList) -> Result<Vec<u8>, Memory>
    ensures text { IfOk result (λ text. text.items ≡ text_of_entries list.now) }
    ensures again { IfOk result (λ text. list_of_text text.items ≡ Ok list.now) }
{
    let mut text = Vec::new(alloc);
    for entry in list.entries() {
        push_entry(alloc, &mut text, entry.0, entry.1)?;
    }
    Ok(text)
}
