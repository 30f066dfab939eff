//! Laws about placed streams.
ghost use Rattle.cqf_program_placing.specs.Room.{PlacedWhereThereIsRoom};

use cqf_laws_history::state_follows_history;
use cqf_network::first_paths_are_a_tree;

/// Proves that streams of a network file, placed on a cycle time one after the other, are each placed if there is room with those that are
/// placed before it.
///
/// A stream between a bridge and stations takes the first paths on which each link has left what it costs, if there is such a path to each
/// of its stations and their tree has no more hops than are allowed. Else it isn't placed, for the first station without such a path, or
/// for its hops. What a link has left is what it has when the stream's frames pass it, and these leave each bridge after as few links as
/// room permits. So admission refuses no stream for which such paths were found, except for the hops of their tree, and with the limits of
/// `profile` not for these.
///
/// A stream whose phase is to be chosen is placed if there are such paths in some phase. It takes the first paths by what each link has
/// left in its emptiest phase, if their tree has a phase in which each link has left what the stream costs. Then it gets the first phase in
/// which the tree's loads, in descending order, are the least. Else it takes the first phase in which it has such paths.
///
/// A stream along given branches whose phase is to be chosen is placed if and only if there is a phase in which each link of the tree has
/// left what it costs. It gets the first phase in which the loads are the least. Else it isn't placed, for the first link that lacks room.
pub fn placed_where_there_is_room()
    ensures { PlacedWhereThereIsRoom }
{
    state_follows_history();
    first_paths_are_a_tree();
}
