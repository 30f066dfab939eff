//! The orders of a scenario, which a ledger carries out in turn.
ghost use Rattle.std.specs.Prelude.{◌≡◌, ◌-◌, ◌≤◌, ◌<◌, [], All, Err, IfOk, map};
ghost use Rattle.cqf_admission.specs.Asking.{asked_paced};
ghost use Rattle.cqf_admission.specs.Running.{AreThere};
ghost use Rattle.cqf_model.specs.History.{IsLegalHistory, Seals, seals, streams_of};
ghost use Rattle.cqf_admission.specs.declared.orders.Ordered.{Ordered as AnOrdered};
ghost use Rattle.cqf_admission.specs.Orders.{StandsIn, act_in, ordered_in};
ghost use Rattle.cqf_program_scenario.specs.Calls.{HasRoom, HasRoomFor, history_of, seals_by, with_call, with_calls};
ghost use Rattle.cqf_program_scenario.specs.Closing.{scenario_given};
ghost use Rattle.cqf_program_scenario.specs.Logged.{HasOrders, entries_in};
ghost use Rattle.cqf_model.specs.Limits.{most_cycles};

use crate::calls::entered;
use crate::given::RunInput;
use cqf_admission::{Ledger, Logged, Ordered, SealFault, What};
use cqf_laws_history::state_follows_history;
use cqf_model::Row;
use cqf_units::Memory;
use std::alloc::{AllocError, Global};

/// Closes the next cycle to changes.
fn close(ledger: &mut Ledger<'_>, seat: u16) -> Result<(), Memory>
    requires { seals ledger.old.administration.entries < most_cycles }
    ensures domain { ledger.new.administration.domain ≡ ledger.old.administration.domain }
    ensures requests { ledger.new.requests ≡ ledger.old.requests }
    ensures script { ledger.new.script ≡ ledger.old.script }
    ensures entries { IfOk result (λ _. ledger.new.administration.entries
        ≡ with_call ledger.old.administration.domain ledger.old.administration.entries (seat, Seals)) }
{
    match ledger.seal(seat) {
        Ok(_) => Ok(()),
        Err(SealFault::CyclesSpent) => unreachable!(),
        Err(SealFault::Memory) => Err(AllocError),
    }
}

/// Carries out an order.
fn carry_out(ledger: &mut Ledger<'_>, order: Ordered) -> Result<(), Memory>
    requires room { HasRoomFor ledger.old.administration.entries (act_in ledger.old.requests ledger.old.script order.what) }
    requires stands { StandsIn ledger.old.requests ledger.old.script order.what }
    ensures domain { ledger.new.administration.domain ≡ ledger.old.administration.domain }
    ensures requests { ledger.new.requests ≡ ledger.old.requests }
    ensures script { ledger.new.script ≡ ledger.old.script }
    ensures entries { IfOk result (λ _. ledger.new.administration.entries
        ≡ with_call ledger.old.administration.domain ledger.old.administration.entries (ordered_in ledger.old.requests ledger.old.script order)) }
{
    state_follows_history();
    match order.what {
        What::Admit(index) => entered(ledger.admit(order.seat, index)),
        What::Withdraw { from, octets } => entered(ledger.withdraw(order.seat, from, octets)),
        What::Seal => close(ledger, order.seat),
    }
}

/// Carries out orders in turn.
fn carry_out_all(ledger: &mut Ledger<'_>, orders: &[Ordered], cycles: u32) -> Result<(), Memory>
    requires short { cycles ≤ most_cycles }
    requires room { HasRoom cycles ledger.old.administration.entries (map (ordered_in ledger.old.requests ledger.old.script) orders.now) }
    requires stand { All (λ (order : AnOrdered). StandsIn ledger.old.requests ledger.old.script order.what) orders.now }
    ensures domain { ledger.new.administration.domain ≡ ledger.old.administration.domain }
    ensures requests { ledger.new.requests ≡ ledger.old.requests }
    ensures script { ledger.new.script ≡ ledger.old.script }
    ensures entries { IfOk result (λ _. ledger.new.administration.entries
        ≡ with_calls ledger.old.administration.domain ledger.old.administration.entries (map (ordered_in ledger.old.requests ledger.old.script) orders.now)) }
    ensures few { IfOk result (λ _. seals ledger.new.administration.entries ≤ cycles) }
{
    state_follows_history();
    for order in orders {
        carry_out(ledger, *order)?;
    }
    Ok(())
}

/// Closes the cycles that are still open, up to `cycles` cycles in all.
fn close_all(ledger: &mut Ledger<'_>, seat: u16, cycles: u32) -> Result<(), Memory>
    requires short { cycles ≤ most_cycles }
    requires few { seals ledger.old.administration.entries ≤ cycles }
    ensures domain { ledger.new.administration.domain ≡ ledger.old.administration.domain }
    ensures requests { ledger.new.requests ≡ ledger.old.requests }
    ensures script { ledger.new.script ≡ ledger.old.script }
    ensures entries { IfOk result (λ _. ledger.new.administration.entries
        ≡ with_calls ledger.old.administration.domain ledger.old.administration.entries (seals_by seat (cycles - seals ledger.old.administration.entries))) }
    ensures all { IfOk result (λ _. seals ledger.new.administration.entries ≡ cycles) }
{
    state_follows_history();
    let open = ledger.next_cycle();
    for _cycle in open.0..cycles {
        close(ledger, seat)?;
    }
    Ok(())
}

/// Returns the log of a scenario's history over `cycles` cycles, and the streams that the history ever granted, by
/// number.
pub(crate) fn log_of(
    alloc: Global,
    cycles: u32,
    given: &RunInput,
) -> Result<(Vec<Logged>, Vec<Row>), Memory>
    requires short { cycles ≤ most_cycles }
    requires room { HasRoom cycles [] (map (ordered_in (map asked_paced given.now.requests.items) given.now.script.items) given.now.orders.items) }
    requires stand { HasOrders given.now }
    ensures entries { IfOk result (λ made. entries_in given.now made.0.items ≡ history_of cycles (scenario_given given.now)) }
    ensures legal { IfOk result (λ made. IsLegalHistory given.now.domain (entries_in given.now made.0.items)) }
    ensures there { IfOk result (λ made. AreThere (map asked_paced given.now.requests.items) given.now.script.items made.0.items) }
    ensures all { IfOk result (λ made. seals (entries_in given.now made.0.items) ≡ cycles) }
    ensures rows { IfOk result (λ made. made.1.items ≡ streams_of given.now.domain (entries_in given.now made.0.items)) }
{
    let requests = given.requests.as_slice();
    let script = given.script.as_slice();
    let orders = given.orders.as_slice();
    let mut ledger = Ledger::new(alloc, &given.domain, requests, script)?;
    carry_out_all(&mut ledger, orders, cycles)?;
    close_all(&mut ledger, given.sealer, cycles)?;
    ledger.into_parts()
}
