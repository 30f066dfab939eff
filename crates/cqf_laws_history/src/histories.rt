//! Laws about the tables of a history of admissions.
//!
//! Each law is a function that does nothing. Its contract is a statement of `specs/` about the definitions of `cqf_model`, and its
//! proof shows that the statement holds for each domain and legal history. To use a law, another proof calls the function.
//!
//! - [`tables_are_orderly`]: what the laws of the network need of the tables of a legal history.
//! - [`granted_is_a_tree`]: what holds for a request that isn't refused.
//! - [`branches_make_a_tree_by_pairs`]: which branch makes a request refused as no tree.
//! - [`state_follows_history`]: how the held streams change with each entry, so that an administration needn't look through its
//!   history.
//! - [`streams_follow_history`]: how the list of all streams that were ever granted changes with each entry.
//!
//! ```
//! // from here on, a proof knows that the tables of a legal history are orderly: no link is over its budget in them
//! cqf_laws_history::tables_are_orderly();
//! ```

ghost use Rattle.cqf_laws_history.specs.BranchLaws.{LinksBoundHops, PairsAreTested, PairsHaveTheirBeginnings, RefusedAsNoTree, TreesAreMadeOfPairs};
ghost use Rattle.cqf_laws_history.specs.HistoryLaws.{TablesAreOrderly, TablesAscend, ThereAreSoManyTables};
ghost use Rattle.cqf_laws_history.specs.HistoryLaws.{GrantedFitsARow, GrantedIsATree, TreeIsItsBranches, TreesHaveFewLinks};
ghost use Rattle.cqf_laws_history.specs.StreamLaws.{GrantedIsLast, SealChangesNoStream, WithdrawnEnds};
ghost use Rattle.cqf_laws_history.specs.StateLaws.{
  HistoryGoesOn,
  SealsAreCounted,
  GrantedFindsRoom,
  GrantedIsHeld,
  RefusedChangesNothing,
  WithdrawnIsHeldOn,
  SealLetsGo,
  SealClosesTable,
  HeldAreSound,
};

/// Proves that a legal history has one table for each closed cycle, that these tables are orderly, and that their rows are sorted
/// by number.
///
/// Tables are orderly if:
///
/// - The trees are trees of the domain.
/// - Numbers and names identify one stream.
/// - A live stream stays until its last frame has left the last bridge of its longest branch.
/// - The streams of a table cost no more of a link than the link's budget.
pub fn tables_are_orderly()
    ensures orderly { TablesAreOrderly }
    ensures ascend { TablesAscend }
    ensures count { ThereAreSoManyTables }
{}

/// Proves that the branches of a request that isn't refused form a tree of the domain.
///
/// Each hop of the tree is a hop of a branch, and each hop of a branch is in the tree. A tree has no more links than its domain,
/// and the tree of such a request has no more than a row holds.
pub fn granted_is_a_tree()
    ensures tree { GrantedIsATree }
    ensures branches { TreeIsItsBranches }
    ensures few { TreesHaveFewLinks }
    ensures fits { GrantedFitsARow }
{}

/// Proves that a running state agrees with the whole history: each entry changes the streams that are held in the next cycle, and
/// the number of the next stream, in one small step. A request that isn't refused finds room.
pub fn state_follows_history()
    ensures goes_on { HistoryGoesOn }
    ensures counted { SealsAreCounted }
    ensures granted { GrantedIsHeld }
    ensures room { GrantedFindsRoom }
    ensures refused { RefusedChangesNothing }
    ensures withdrawn { WithdrawnIsHeldOn }
    ensures lets_go { SealLetsGo }
    ensures closes { SealClosesTable }
    ensures held { HeldAreSound }
{}

/// Proves how the streams of a history, held or not and in the order of their numbers, change with each entry: a granted stream is
/// appended, a withdrawn one keeps its position and gets its end, and a Seal changes none.
pub fn streams_follow_history()
    ensures granted { GrantedIsLast }
    ensures withdrawn { WithdrawnEnds }
    ensures sealed { SealChangesNoStream }
{}

/// Proves that pairs of branches decide which branch is refused as no tree.
///
/// Two branches make one tree if they begin alike, then part, and have no node in common from there on. If both branches are whole
/// and have no loop, this holds exactly if they begin with the same node, differ, and each node of both has the same nodes before
/// it in both.
///
/// If no earlier refusal applies, a request is refused for the first branch that makes no tree with a branch before it. So it is
/// refused for no branch exactly if each two of its branches make one tree. A request is refused for too many hops only if the
/// domain has more links than a tree may have hops.
pub fn branches_make_a_tree_by_pairs()
    ensures tested { PairsAreTested }
    ensures beginnings { PairsHaveTheirBeginnings }
    ensures refused { RefusedAsNoTree }
    ensures made { TreesAreMadeOfPairs }
    ensures hops { LinksBoundHops }
{}
