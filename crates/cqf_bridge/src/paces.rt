//! Laws about bridges that each go on at their own pace: one bridge may have posted five cycles and another two, with batches under way
//! between them and further tables not yet closed. The caller that drives bridges, event by event or on threads, has lists of what each
//! took, put and posted (`Course` of `specs/Courses.antt`), and one fact to maintain (`AreUnderWay`): each bridge did its part, the tables
//! that it took are those of one history, and what was taken from a link is the beginning of what was put on it.
//!
//! Each law is a function that does nothing. Its contract is a statement of `specs/`, and its proof shows that the statement holds for each
//! domain and history. A proof elsewhere uses the law by calling the function.
//!
//! - Each page that was posted is that page of the one-thread book of the history ([`pages_are_of_the_book`]).
//! - Each bridge is in the cycle that its lists say, and refuses its next cycle only if an allocation fails ([`bridges_go_on`]).
//!
//! ```
//! // from here on, a proof knows that the pages of bridges under way are those of the one-thread book
//! cqf_bridge::pages_are_of_the_book();
//! ```

ghost use Rattle.cqf_bridge.specs.CourseLaws.{
  BridgesReceiveButForMemory,
  BridgesSendButForMemory,
  BridgesStandBefore,
  BridgesStandHalfway,
  PagesAreOfTheBook,
};

/// Proves that bridges under way have posted pages of the one-thread book of the history, no matter how far each of them is. Each bridge
/// sends and receives cycle by cycle, with the tables of one history and the batches that the others put on their links for it. The law
/// doesn't fix the order of events, so each order, on any number of threads, gives those pages (IEEE 802.1Q, Annex T).
pub fn pages_are_of_the_book()
    ensures { PagesAreOfTheBook }
{
    crate::new_bridge_follows();
    crate::sending_follows();
    crate::receiving_follows();
    crate::page_follows();
    cqf_laws_history::tables_are_orderly();
}

/// Proves that such a bridge isn't spent, and has sent and received the cycles that its lists say. It refuses to send the next cycle only
/// if an allocation fails. Once it has the cycle's table and a batch of each link that ends in it, it refuses to receive the cycle only
/// then, too: under the tables of a history nothing is lost inside (IEEE 802.1Q, Annex T).
pub fn bridges_go_on()
    ensures before { BridgesStandBefore }
    ensures halfway { BridgesStandHalfway }
    ensures sends { BridgesSendButForMemory }
    ensures receives { BridgesReceiveButForMemory }
{
    crate::new_bridge_follows();
    crate::sending_follows();
    crate::receiving_follows();
    crate::no_other_fault();
    crate::history_loses_nothing();
    cqf_laws_network::legal_network_exists();
    cqf_laws_history::tables_are_orderly();
}
