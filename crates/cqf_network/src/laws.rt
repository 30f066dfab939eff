//! Laws about first paths.
ghost use Rattle.cqf_network.specs.PathLaws.{FirstPathIsOne, FirstPathsHaveNoLoop, FirstPathsPartForGood, FullPathsHaveAShortLink, NothingHasRoomEverywhere};

/// Proves that there is at most one first path, and no node occurs twice on it. The first paths from one node to two
/// different stations, with the same room, part for good: after a common beginning they continue by different links,
/// and from there on no node is on both. So the first paths to several stations are the branches of a tree.
pub fn first_paths_are_a_tree()
    ensures one { FirstPathIsOne }
    ensures no_loop { FirstPathsHaveNoLoop }
    ensures part { FirstPathsPartForGood }
{}

/// Proves that if there is no path with room, each path without that condition has a link without room. At a cost of 0,
/// that condition excludes no path, provided that it is known what each link has left.
pub fn full_paths_have_a_short_link()
    ensures short { FullPathsHaveAShortLink }
    ensures for_nothing { NothingHasRoomEverywhere }
{}
