//! The lines of an object give the compiled lists.
ghost use Rattle.cqf_program_json.specs.Items.{JsonHoldsTheLists};

/// The lines of an object, read one by one, give each bridge of the domain, by number. For the bridge they give each link that leaves it,
/// by number, with the entries of the list to which the link's port is compiled. Then they give each stream that leaves the bridge, by
/// number, with its gate's index and the entries of the list to which its gate is compiled at the bridge. They give this in this order, and
/// nothing else.
pub fn json_holds_the_lists()
    ensures { JsonHoldsTheLists }
{}
