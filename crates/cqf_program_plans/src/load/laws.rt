//! Laws about what still fits a link.
ghost use Rattle.cqf_program_plans.specs.Load.Laws.{AdmittedAreListed, FitsIsGreatest, NoneHoldsMore, OneMoreFits, PlanFits};

use cqf_laws_history::state_follows_history;
use cqf_laws_timing::lists_bound_costs;

/// Proves that the greatest reservation that still fits is correct: a reservation, of 64 to 1,000,000 octets, costs no more than what is
/// left of a link if and only if it is no greater. So one more stream of each cycle, which is refused for no other reason, is accepted
/// beside any streams if and only if it is no greater than what fits each link of its tree.
pub fn greatest_fits()
    ensures greatest { FitsIsGreatest }
    ensures one_more { OneMoreFits }
{}

/// Proves that streams that are listed are all admitted if and only if no link holds more than its budget, that is, if what is left of each
/// link is 0 or more. Streams that are all admitted are listed, with the rows of the table of cycle 0. Even if not all are admitted, no
/// link ever holds more than what is written of it, in any history that admits only these streams.
pub fn plan_fits()
    ensures fits { PlanFits }
    ensures listed { AdmittedAreListed }
    ensures most { NoneHoldsMore }
{
    state_follows_history();
    lists_bound_costs();
}
