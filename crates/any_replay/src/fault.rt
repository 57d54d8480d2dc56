//! What is wrong with a record.
ghost use Rattle.std.specs.Prelude.{◌≡◌, IsTrue};
ghost use Rattle.std.specs.Option.{option_map, option_or};
ghost use Rattle.any_machine.specs.Replay as model;
ghost use Rattle.any_machine.specs.Held.{halt_fault, wait_fault, held_fault};
ghost use Rattle.any_machine.specs.Replay.{fault_at};
ghost use Rattle.any_replay.specs.Standing.{held_of};

use crate::standing::{Standing, wait};
use any_machine::Hart;
use run_events::{Diverged, EndCause, Record, Supplied, Why, number};

// Whether a record may stand after a power store that ends a run of this many steps.
fn is_after_power(steps: u32, status: u8, item: &Record) -> bool
    ensures { result ≡ model.is_after_power steps status item.now }
{
    match item {
        Record::Reach { step } => *step == steps,
        Record::End {
            step,
            cause: EndCause::Power { status: told },
        } => *step == steps && *told == status,
        _ => false,
    }
}

// The fault of a record whose steps are not all done, or which does not follow the power store of the last one. What the
// step to come needs is asked only where that step is missing.
#[inline(always)]
fn halt_fault_of<H: Hart>(standing: &Standing<H>, item: &Record) -> Option<Diverged>
    ensures { result ≡ halt_fault (H.done standing.now.hart) standing.now.power
        (wait_fault H.machine (held_of H.done standing.now)) item.now }
{
    let step = standing.hart.steps();
    match standing.power {
        Some(status) if is_after_power(step, status, item) => None,
        Some(_) => Some(Diverged {
            step: step.saturating_sub(1),
            why: Why::EndsElsewhere,
        }),
        None if step < number(item) => missing(standing),
        None => None,
    }
}

// Why the step to come is missing.
#[cold]
#[inline(never)]
fn missing<H: Hart>(standing: &Standing<H>) -> Option<Diverged>
    ensures { result ≡ option_map (fault_at (H.done standing.now.hart))
        (wait_fault H.machine (held_of H.done standing.now)) }
{
    let step = standing.hart.steps();
    wait(standing).map(|why| Diverged { step, why })
}

// Whether an end agrees with the last step.
fn end_agrees(cause: EndCause, power: Option<u8>) -> bool
    ensures { result ≡ model.end_agrees cause power }
{
    match (cause, power) {
        (EndCause::Power { status }, Some(stored)) => status == stored,
        (EndCause::Limit, None) => true,
        _ => false,
    }
}

// What is wrong with an end by itself.
fn end_fault(
    step: u32,
    cause: EndCause,
    load: Option<Supplied>,
    power: Option<u8>,
) -> Option<Diverged>
    ensures { result ≡ model.end_fault step cause load power }
{
    if load.is_some() {
        return Some(Diverged {
            step,
            why: Why::UnusedLoad,
        });
    }
    if end_agrees(cause, power) {
        None
    } else {
        Some(Diverged {
            step,
            why: Why::EndsElsewhere,
        })
    }
}

// What is wrong with a record by itself, where all steps below its number are done.
#[inline(always)]
fn own_fault<H: Hart>(standing: &Standing<H>, item: &Record) -> Option<Diverged>
    ensures { (start : H) → H.ram_size start ≡ H.ram_size standing.now.hart
        → result ≡ model.own_fault H.machine start item.now standing.now.load standing.now.power }
{
    match item {
        Record::End { step, cause } => end_fault(*step, *cause, standing.load, standing.power),
        Record::Dma { step, address, .. } if !standing.hart.holds(*address) => Some(Diverged {
            step: *step,
            why: Why::BadDma,
        }),
        _ => None,
    }
}

/// The fault of a record once the steps below its number are done, as far as they can be.
#[inline(always)]
pub fn fault<H: Hart>(standing: &Standing<H>, item: &Record) -> Option<Diverged>
    ensures { (start : H) → H.ram_size start ≡ H.ram_size standing.now.hart
        → result ≡ held_fault H.machine start item.now (held_of H.done standing.now) }
{
    match halt_fault_of(standing, item) {
        Some(fault) => Some(fault),
        None => own_fault(standing, item),
    }
}
