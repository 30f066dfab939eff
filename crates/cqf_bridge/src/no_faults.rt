//! The faults of a bridge that follows the network.
ghost use Rattle.cqf_bridge.specs.NoFaults.{
  BatchesMayCome,
  NoneIsOver,
  OrderlyRunLosesNothing,
  ReceivesButForMemory,
  RunOfHistoryLosesNothing,
  SendsButForMemory,
};

/// Proves that a run with orderly tables, such as those of a legal history of admissions, loses nothing inside, for all offers and any
/// background frames (IEEE 802.1Q, Annex T).
pub fn history_loses_nothing()
    ensures orderly { OrderlyRunLosesNothing }
    ensures history { RunOfHistoryLosesNothing }
{
    cqf_laws_shift::gates_mean_the_shift();
    cqf_laws_history::tables_are_orderly();
}

/// Proves laws about a run that loses nothing inside. The batches of a cycle may arrive at the bridge in which their links end, and none of
/// their frames is over its octets there. A bridge that isn't spent refuses to send its next cycle, or to receive it with these batches,
/// only if an allocation fails.
pub fn no_other_fault()
    ensures batches { BatchesMayCome }
    ensures none_over { NoneIsOver }
    ensures sends { SendsButForMemory }
    ensures receives { ReceivesButForMemory }
{
    cqf_laws_cycle::cycle_brings_its_batches();
    cqf_laws_cycle::run_is_its_cycles();
    cqf_laws_shift::gate_is_reservation();
}
