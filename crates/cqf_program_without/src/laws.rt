//! Laws: the links are out.
ghost use Rattle.cqf_program_without.specs.OutLaws.{LinksAreOut, NetworksLackLinks, PlansUseNoLinkOut};

use cqf_program_planning::written_plan_is_admitted;

/// Law: none of the links is left in the tables of a network file without them, as a direction of any element of its array of links.
pub fn links_are_out()
    ensures { LinksAreOut }
{}

/// Law: a network that is read from the text of a network file without the links has none of them, neither from its bridges nor as an access
/// link. The tables that are left may not be nested deeper than the reader allows.
pub fn networks_lack_links()
    ensures { NetworksLackLinks }
{}

/// Law: no stream of a plan for such a text uses one of the links, neither on a path that was chosen nor on one that was given. The tables
/// that are left may not be nested deeper than the reader allows.
pub fn plans_use_no_link_that_is_out()
    ensures { PlansUseNoLinkOut }
{
    written_plan_is_admitted();
}
