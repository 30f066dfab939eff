//! Laws about gate control lists and about what an output port may send.
//!
//! Each law is a function that does nothing. Its contract is a statement of `specs/` about the definitions of
//! `cqf_model`, and its proof shows that the statement holds for each gate list, port and list of arrivals. A proof
//! elsewhere uses the law by calling the function.
//!
//! - About a gate list: the states at an instant are those of the one entry in force, and a frame is eligible if and
//!   only if its class stays open long enough ([`mask_is_in_force`], [`eligible_by_open_for`]).
//! - About a port: it can always continue ([`legal_starts_exist`]). What it sends is determined
//!   ([`legal_starts_are_unique`]), and only by what came before ([`only_the_past_counts`]). An earlier end changes
//!   nothing before it ([`legal_part_is_legal`]). An arrival that is reported late changes nothing if its class has
//!   been closed since it came ([`late_arrival_changes_nothing`]).
//!
//! ```
//! // from here on, a proof knows that two legal lists of transmissions for the same arrivals are equal
//! cqf_laws_network::legal_starts_are_unique();
//! ```

ghost use Rattle.cqf_laws_network.specs.GateLaws.{
  StatesAreOfTheEntry,
  RoundTakesTime,
  SomeEntryIsInForce,
  OneEntryIsInForce,
  FrameFitsWhileOpen,
};
ghost use Rattle.cqf_laws_network.specs.PortLaws.{
  LegalStartsAreUnique,
  LegalStartsExist,
  LegalPartIsLegal,
  LegalPartIsLegalForTheSamePast,
  OnlyThePastCounts,
  LateArrivalChangesNothing,
};

/// Proves that the states at an instant are those of the entry whose span, repeated without end from instant 0,
/// contains the instant. If a round has a positive duration, as it has if any entry has, there is exactly one such
/// entry, at one offset (IEEE 802.1Q, 8.6.8.4).
pub fn mask_is_in_force()
    ensures states { StatesAreOfTheEntry }
    ensures round { RoundTakesTime }
    ensures some { SomeEntryIsInForce }
    ensures one { OneEntryIsInForce }
{}

/// Proves that a class is open for a whole frame from an instant on if and only if it stays open for good, or until the
/// frame's end or later: there is time to send the frame before the next gate-close event (IEEE 802.1Q, 8.6.8.4).
pub fn eligible_by_open_for()
    ensures { FrameFitsWhileOpen }
{}

/// Proves that no two lists of transmissions are legal up to an end for the same gate list, link and arrivals.
pub fn legal_starts_are_unique()
    ensures { LegalStartsAreUnique }
{}

/// Proves that some list of transmissions is legal, for any gate list, link, arrivals and end.
pub fn legal_starts_exist()
    ensures { LegalStartsExist }
{}

/// Proves that the part of legal transmissions before an earlier end is legal up to that end, also for any arrivals
/// that are the same before it.
pub fn legal_part_is_legal()
    ensures part { LegalPartIsLegal }
    ensures same_past { LegalPartIsLegalForTheSamePast }
{}

/// Proves that two ports with the same rules and the same arrivals before an instant send the same before it.
pub fn only_the_past_counts()
    ensures { OnlyThePastCounts }
{}

/// Proves that an arrival that is reported late changes nothing if its class has been closed at each instant since it
/// came: what was legal without it is legal with it.
pub fn late_arrival_changes_nothing()
    ensures { LateArrivalChangesNothing }
{}
