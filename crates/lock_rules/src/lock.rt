//! The locks that count, in the order in which they were first named.
ghost use Rattle.std.specs.Prelude.{◌≡◌, ◌==◌, Option, None, map};
ghost use Rattle.std.specs.List.{position_from};
ghost use Rattle.analysis_model.specs.Locks.{has_lock, is_held_by};
ghost use Rattle.lock_rules.specs.Entries.{numbers, holder_of, holder_at, with_holder};

/// A lock that counts, by its number, and the context that holds it.
#[derive(Clone, Copy)]
pub struct Lock {
    pub number: u32,
    pub holder: Option<u32>,
}

/// The place of the lock with this number; none where it does not count.
pub fn place_of(locks: &[Lock], number: u32) -> Option<usize>
    ensures { result ≡ position_from (λ lock. lock.number == number) 0 locks.now }
{
    locks.iter().position(|lock| lock.number == number)
}

/// The context that holds the lock at this place.
pub fn holder_at(locks: &[Lock], place: usize) -> Option<u32>
    ensures { result ≡ holder_at locks.now place }
{
    match locks.get(place) {
        Some(lock) => lock.holder,
        None => None,
    }
}

/// Whether the lock with this number counts.
pub fn is_known(locks: &[Lock], number: u32) -> bool
    ensures { result ≡ has_lock (numbers locks.now) number }
{
    locks
        .iter()
        .map(|lock| lock.number)
        .any(|other| other == number)
}

/// The context that holds the lock with this number.
pub fn holder_of(locks: &[Lock], number: u32) -> Option<u32>
    ensures { result ≡ holder_of locks.now number }
{
    for lock in locks {
        if lock.number == number {
            return lock.holder;
        }
    }
    None
}

/// Whether this context holds a lock that has this holder.
pub fn is_held_by(holder: Option<u32>, context: u32) -> bool
    ensures { result ≡ is_held_by holder context }
{
    match holder {
        Some(other) => other == context,
        None => false,
    }
}

/// Gives the lock with this number another holder.
pub fn set_holder(locks: &mut [Lock], number: u32, holder: Option<u32>)
    ensures { locks.new ≡ map (with_holder number holder) locks.old }
{
    for lock in locks.iter_mut() {
        *lock = with_holder(*lock, number, holder);
    }
}

// The lock, with another holder where it has this number.
fn with_holder(lock: Lock, number: u32, holder: Option<u32>) -> Lock
    ensures { result ≡ with_holder number holder lock }
{
    Lock {
        number: lock.number,
        holder: if number == lock.number {
            holder
        } else {
            lock.holder
        },
    }
}
