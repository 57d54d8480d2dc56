//! What a guest announces to the analyses.
ghost use Rattle.std.specs.Prelude.{◌≡◌, None, false};
ghost use Rattle.run_events.specs.declared.access.Told.{Told as Arguments};
ghost use Rattle.run_events.specs.Announcement.{announced_by, is_idle_compare};

use crate::Told;

/// How many contexts a guest may run in.
pub const CONTEXTS: u32 = 64;

/// What a guest tells by executing `slti x0, x0, k`, an instruction without an effect, with its arguments in a0, a1 and
/// a2. A block or a range is `size` bytes from `address` on, as whole numbers that do not wrap.
#[derive(Clone, Copy, Debug, PartialEq, Eq)]
pub enum Announcement {
    /// k = 1: the block is allocated.
    Allocate { address: u32, size: u32 },
    /// k = 2: the block is freed.
    Free { address: u32, size: u32 },
    /// k = 3: the lock is acquired.
    Acquire { lock: u32 },
    /// k = 4: the lock is released.
    Release { lock: u32 },
    /// k = 5: the context is now this one. One that is not below `CONTEXTS` changes nothing.
    Enter { context: u32 },
    /// k = 6: the bytes of the range must be unmarked.
    Check { address: u32, size: u32 },
    /// k = 7: the bytes of the range are guarded by the lock.
    Guard { address: u32, size: u32, lock: u32 },
}

impl Announcement {
    /// What the instruction `word` announces; none where it is no `slti x0, x0, k` with k from 1 to 7.
    #[inline(always)]
    pub fn of(word: u32, told: Told) -> Option<Announcement>
        ensures { result ≡ announced_by word told }
    {
        if !may_announce(word) {
            return None;
        }
        of_number(word, told)
    }
}

/// Whether the instruction `word` is `slti x0, x0, k` for some k. No other announces anything. It is one compare, for those
/// who look at each event.
#[tactic(auto, using(crate::proofs::AnnouncementLaws::announced_by_none))]
#[inline(always)]
pub fn may_announce(word: u32) -> bool
    ensures form { result ≡ is_idle_compare word }
    ensures none { result ≡ false → (told : Arguments) → announced_by word told ≡ None }
{
    // the lower twenty bits of slti x0, x0, k, above which k stands
    word % 0x10_0000 == 0x2013
}

// What `word` announces, by its k.
#[tactic(auto, unfolding(crate::specs::Announcement::announced_by))]
fn of_number(word: u32, told: Told) -> Option<Announcement>
    ensures { result ≡ announced_by word told }
{
    let Told { a0, a1, a2 } = told;
    match word {
        0x0010_2013 => Some(Announcement::Allocate {
            address: a0,
            size: a1,
        }),
        0x0020_2013 => Some(Announcement::Free {
            address: a0,
            size: a1,
        }),
        0x0030_2013 => Some(Announcement::Acquire { lock: a0 }),
        0x0040_2013 => Some(Announcement::Release { lock: a0 }),
        0x0050_2013 => Some(Announcement::Enter { context: a0 }),
        0x0060_2013 => Some(Announcement::Check {
            address: a0,
            size: a1,
        }),
        0x0070_2013 => Some(Announcement::Guard {
            address: a0,
            size: a1,
            lock: a2,
        }),
        _ => None,
    }
}
