//! The bridges of a domain, driven together.
ghost use Rattle.cqf_bridge.specs.Driven.{
  DrivenBridgesFollow,
  DrivenBridgesGiveTheBook,
  DrivenBridgesGiveTheirPages,
  DrivenBridgesReceiveButForMemory,
  DrivenBridgesSayTheShift,
  DrivenBridgesSend,
  DrivenBridgesSendButForMemory,
};

use crate::{new_bridge_follows, no_other_fault, page_follows, receiving_follows, sending_follows};

/// Proves laws about driven bridges. The bridges of a domain begin with nothing done, and in each cycle each bridge sends, then receives
/// with the batches that the others sent to it. Then each bridge follows the legal network of the run, and their output is the run's book:
/// the network is nothing but its bridges and the batches that they exchange (IEEE 802.1Q, Annex T).
///
/// The laws don't fix the order in which bridges are called within a cycle. So each order, on any number of threads, gives that book.
pub fn driven_bridges_give_the_book()
    ensures follow { DrivenBridgesFollow }
    ensures send { DrivenBridgesSend }
    ensures pages { DrivenBridgesGiveTheirPages }
    ensures book { DrivenBridgesGiveTheBook }
{
    new_bridge_follows();
    sending_follows();
    receiving_follows();
    page_follows();
    cqf_laws_cycle::book_is_its_pages();
}

/// Proves that bridges driven in this way refuse to send a cycle only if an allocation fails. In a run that loses nothing inside, they
/// refuse to receive it only then, too, as under the tables of a history ([`crate::history_loses_nothing`]).
pub fn driven_bridges_want_memory_alone()
    ensures sends { DrivenBridgesSendButForMemory }
    ensures receives { DrivenBridgesReceiveButForMemory }
{
    new_bridge_follows();
    sending_follows();
    receiving_follows();
    no_other_fault();
}

/// Proves that the output of bridges driven in this way, under the tables of a legal history of admissions, says the shift, and keeps all
/// other promises (`KeepsThePromise` of `cqf_model/specs/Headline.antt`). This holds for every accepted domain, all offers and any
/// background frames (IEEE 802.1Q, Annex T).
pub fn driven_bridges_say_the_shift()
    ensures { DrivenBridgesSayTheShift }
{
    driven_bridges_give_the_book();
    cqf_laws_network::book_exists();
    cqf_laws_history::tables_are_orderly();
    cqf_laws_shift::book_of_history_says_the_shift();
}
