//! The guarded ranges, and the least byte of an access that is not guarded by a lock held.
ghost use Rattle.std.specs.Prelude.{◌≡◌};
ghost use Rattle.list_laws.specs.Least.{is_between, least_from};
ghost use Rattle.lock_rules.specs.Entries.{is_open_in, is_open};
ghost use Rattle.lock_rules.specs.Lesser.{lesser};

use crate::lock::{Lock, holder_at, is_held_by};

/// The addresses from `from` on and below `to` are guarded by the lock at this place among the locks.
#[derive(Clone, Copy)]
pub struct Guard {
    pub from: u32,
    pub to: u64,
    pub place: usize,
}

/// The least of `size` addresses from `from` on that is in a range whose lock this context does not hold. One pass over
/// the ranges finds it.
pub fn least_open(
    locks: &[Lock],
    guards: &[Guard],
    context: u32,
    from: u32,
    size: u32,
) -> Option<u32>
    ensures { result ≡ least_from (is_open locks.now context guards.now) from size }
{
    let mut least = None;
    for guard in guards {
        least = lesser(least, open_part(locks, guard, context, from, size));
    }
    least
}

// The least of the addresses that the range has, where the context does not hold its lock.
#[tactic(auto, using(crate::proofs::OpenLaws::open_part_held, crate::proofs::OpenLaws::open_part_free, crate::proofs::OpenLaws::open_part_none))]
fn open_part(locks: &[Lock], guard: &Guard, context: u32, from: u32, size: u32) -> Option<u32>
    ensures { result ≡ least_from (is_open_in locks.now context guard.now) from size }
{
    match overlap(guard, from, size) {
        None => None,
        Some(first) => {
            if is_held_by(holder_at(locks, guard.place), context) {
                None
            } else {
                Some(first)
            }
        }
    }
}

// The least of the addresses that the range has.
#[tactic(auto, using(crate::proofs::OpenLaws::overlap_some, crate::proofs::OpenLaws::overlap_none))]
fn overlap(guard: &Guard, from: u32, size: u32) -> Option<u32>
    ensures { result ≡ least_from (is_between guard.now.from guard.now.to) from size }
{
    let start = guard.from.max(from);
    let end = guard.to.min(u64::from(from) + u64::from(size));
    if u64::from(start) < end {
        Some(start)
    } else {
        None
    }
}

// The lesser of two numbers; where one is missing, the other one.
fn lesser(a: Option<u32>, b: Option<u32>) -> Option<u32>
    ensures { result ≡ lesser a b }
{
    match (a, b) {
        (Some(x), Some(y)) => Some(x.min(y)),
        (Some(x), None) => Some(x),
        (None, other) => other,
    }
}
