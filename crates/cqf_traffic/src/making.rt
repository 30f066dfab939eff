//! The offers of senders.
ghost use Rattle.std.specs.Prelude.{◌≡◌, ◌++◌, ◌<◌, IfOk, OnOk, Some};
ghost use Rattle.cqf_traffic.specs.Offering.{block_before, block_of, offers_before, sent_by, sent_from, sent_with, words_of};

use crate::grid::blocks_before;
use crate::talkers::Talker;
use crate::{TalkerStream, Traffic, Until};
use cqf_model::Offer;
use cqf_units::{Memory, Nanos, Octets};
use std::alloc::Global;

/// Appends a sender's frames of a block. Returns `Memory` if an allocation fails.
fn put_block(
    list: &mut Vec<Offer>,
    sender: &TalkerStream,
    traffic: Traffic,
    at: Nanos,
) -> Result<(), Memory>
    ensures { OnOk result (list.new.items ≡ list.old.items ++ block_of sender.now traffic at.0) }
{
    for _frame in 0..traffic.frames() {
        list.push(Offer {
            at,
            bridge: sender.bridge,
            stream: sender.name.copied(),
            octets: traffic.size().0,
        })?;
    }
    Ok(())
}

/// Appends a sender's frames of a block if the block comes before an instant.
fn put_block_before(
    list: &mut Vec<Offer>,
    end: Nanos,
    sender: &TalkerStream,
    traffic: Traffic,
    at: u128,
) -> Result<(), Memory>
    ensures { OnOk result (list.new.items ≡ list.old.items ++ block_before end.0 sender.now traffic at) }
{
    if at < u128::from(end.0) {
        put_block(list, sender, traffic, Nanos(at as u64))
    } else {
        Ok(())
    }
}

/// Appends what a sender with traffic offers.
fn put_blocks(
    list: &mut Vec<Offer>,
    until: Until,
    number: u64,
    sender: &TalkerStream,
    traffic: Traffic,
) -> Result<(), Memory>
    ensures { OnOk result (list.new.items ≡ list.old.items ++ sent_with until.end.0 sender.now (words_of until.seed number) (Some traffic)) }
{
    let mut talker = Talker::new(traffic, until.seed, number);
    for block in 0..blocks_before(until.end, traffic) {
        let at = talker.next(block);
        put_block_before(list, until.end, sender, traffic, at)?;
    }
    Ok(())
}

/// Appends what the sender with a number, from 0, offers.
fn put_sent(
    list: &mut Vec<Offer>,
    until: Until,
    number: u64,
    sender: &TalkerStream,
) -> Result<(), Memory>
    ensures { OnOk result (list.new.items ≡ list.old.items ++ sent_by until.end.0 until.seed number sender.now) }
{
    match sender.traffic {
        Some(traffic) => put_blocks(list, until, number, sender, traffic),
        None => Ok(()),
    }
}

/// Returns what senders offer, one sender after the other.
fn sent_from(alloc: Global, until: Until, senders: &[TalkerStream]) -> Result<Vec<Offer>, Memory>
    ensures { IfOk result (λ list. list.items ≡ sent_from until.end.0 until.seed 0 senders.now) }
{
    let mut list = Vec::new(alloc);
    for (number, sender) in senders.iter().enumerate() {
        put_sent(&mut list, until, number as u64, sender)?;
    }
    Ok(list)
}

/// Returns what senders offer before an instant, or `Memory` if an allocation fails. Blocks 0, 1, .. of each sender with traffic come at
/// its offset plus that many intervals. With a seed they are late by up to the jitter, but none comes before the previous one. The offers
/// are ordered by instant, then by the sender's index, then by their order.
pub fn offers_before(
    alloc: Global,
    until: Until,
    senders: &[TalkerStream],
) -> Result<Vec<Offer>, Memory>
    ensures { IfOk result (λ list. list.items ≡ offers_before until.end.0 until.seed senders.now) }
{
    let mut list = sent_from(alloc, until, senders)?;
    list.sort_by_key(|offer| offer.at.0)?;
    Ok(list)
}
