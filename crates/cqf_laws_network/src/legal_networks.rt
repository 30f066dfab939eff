//! Laws about the legal network of a run and about its book.
//!
//! Each law is a function that does nothing. Its contract is a statement of `specs/` about the definitions of
//! `cqf_model`, and its proof shows that the statement holds for each run, regardless of gate lists, tables, offers and
//! background frames. A proof elsewhere uses the law by calling the function.
//!
//! - There is a legal network ([`legal_network_exists`]), and no other ([`legal_network_is_unique`]), so what a domain
//!   does is determined. So is what its book says ([`book_exists`], [`book_is_unique`]).
//! - Only the past matters: what arrives at a bridge or a port, and what a port sends of either kind, depends on what
//!   was sent before ([`the_past_alone_matters`]).
//! - A run of fewer cycles is the beginning of a longer one, and its book is the beginning of the longer one's
//!   ([`shorter_run_is_the_beginning`], [`shorter_book_is_the_beginning`]): nothing depends on what is offered,
//!   admitted or withdrawn later.
//!
//! ```
//! // from here on, a proof knows that two legal networks of the same run and gate lists are equal
//! cqf_laws_network::legal_network_is_unique();
//! ```

ghost use Rattle.cqf_laws_network.specs.NetworkLaws.{
  LegalNetworkExists,
  LegalNetworkIsUnique,
  PortGoesByThePast,
  BridgesGoByThePast,
  PortsGetThePast,
  BeginningIsLegal,
  ShorterRunIsTheBeginning,
  FirstTablesAreTheSame,
  BookIsUnique,
  BookExists,
  ShorterBookIsTheBeginning,
};

/// Proves that some network is legal, for any run, gate lists and number of cycles.
pub fn legal_network_exists()
    ensures { LegalNetworkExists }
{
    crate::legal_part_is_legal();
    crate::only_the_past_counts();
    crate::legal_starts_exist();
}

/// Proves that no two networks are legal for the same run, gate lists and number of cycles.
pub fn legal_network_is_unique()
    ensures { LegalNetworkIsUnique }
{
    crate::only_the_past_counts();
}

/// Proves two things about the past. What a port sends before an instant depends on what arrives at it before the
/// instant. What arrives at the bridges and ports before a cycle depends on what the links carry before it and on the
/// tables of the cycles before it.
pub fn the_past_alone_matters()
    ensures sends { PortGoesByThePast }
    ensures bridges { BridgesGoByThePast }
    ensures ports { PortsGetThePast }
{
    crate::only_the_past_counts();
}

/// Proves that what a legal network sends before an earlier cycle begins is the legal network of the shorter run, and
/// that the tables from that cycle on don't matter for it: the first tables alone give the same.
pub fn shorter_run_is_the_beginning()
    ensures legal { BeginningIsLegal }
    ensures only { ShorterRunIsTheBeginning }
    ensures tables { FirstTablesAreTheSame }
{
    crate::legal_part_is_legal();
    legal_network_is_unique();
}

/// Proves that no two books are of the same run, gate lists and number of cycles.
pub fn book_is_unique()
    ensures { BookIsUnique }
{
    legal_network_is_unique();
}

/// Proves that there is a book, for any run, gate lists and number of cycles.
pub fn book_exists()
    ensures { BookExists }
{
    legal_network_exists();
}

/// Proves that the part of a run's book about its first cycles is the book of the run of those cycles, with the same
/// tables or only the tables of those cycles.
pub fn shorter_book_is_the_beginning()
    ensures { ShorterBookIsTheBeginning }
{
    crate::legal_part_is_legal();
}
