//! The timer: a count that rises with its clock and with the ticks of a script, and what it is compared with.
//! (Privileged manual, 3.2.1.)
ghost use Rattle.std.specs.Prelude.{◌≡◌, ℕ, ◌+◌, ◌-◌, ◌%◌, ◌^◌, ◌≤◌, min, nat_le};
ghost use Rattle.rv_devices.specs.Times.{Times, passed, rises_kept, steady_until};

/// The count of the timer, what it is compared with, and when it rises next.
#[derive(Drop)]
pub struct Timer {
    // it rises each so many steps
    pub clock: u32,
    // the next step before which it rises by its clock
    pub rise: u64,
    pub count: u64,
    pub compare: u64,
}

impl Timer {
    /// The timer at reset, of a machine whose timer rises each `clock` steps.
    pub fn new(clock: u32) -> Timer
        ensures times { 1 ≤ clock → Times clock 0 0 0 result }
        ensures compare { result.compare ≡ 2 ^ 64 - 1 }
        ensures rise { result.rise ≡ clock }
    {
        Timer {
            clock,
            rise: u64::from(clock),
            count: 0,
            compare: u64::MAX,
        }
    }

    /// Goes on to this step.
    pub fn advance(&mut self, step: u32)
        ensures times { (clock ticks offset : ℕ)
            → 1 ≤ clock
            → Times clock step ticks offset self.old
            → Times clock (step + 1) ticks offset self.new }
        ensures compare { self.new.compare ≡ self.old.compare }
    {
        if u64::from(step) == self.rise {
            self.count = self.count.wrapping_add(1);
            self.rise = u64::from(step) + u64::from(self.clock);
        }
    }

    /// Goes on to where so many steps have begun.
    #[inline]
    pub fn pass(&mut self, begun: u64)
        ensures passes { 1 ≤ self.old.clock → begun ≤ 2 ^ 32
            → self.old.rise ≤ 2 ^ 32 + self.old.clock
            → self.new ≡ passed self.old begun }
        ensures compare { self.new.compare ≡ self.old.compare }
    {
        if begun > self.rise {
            let clock = u64::from(self.clock.max(1));
            let rises = (begun - 1 - self.rise) / clock + 1;
            self.count = self.count.wrapping_add(rises);
            self.rise = self.rise.wrapping_add(rises.wrapping_mul(clock));
        }
    }

    // How often it may rise while its line stays.
    fn rises_kept(&self) -> u64
        ensures { result ≡ rises_kept self.now }
    {
        if self.count < self.compare {
            self.compare - self.count - 1
        } else {
            u64::MAX - self.count
        }
    }

    /// Up to which step its line stays as it is, where only its clock moves it; the greatest number where that is later.
    #[inline]
    pub fn steady(&self) -> u64
        ensures { result ≡ min (steady_until self.now) (2 ^ 64 - 1) }
    {
        let clock = u64::from(self.clock);
        self.rise
            .saturating_add(self.rises_kept().saturating_mul(clock))
    }

    /// Rises by so many ticks.
    pub fn pulse(&mut self, ticks: u64)
        ensures times { (clock begun before after offset : ℕ)
            → (ticks + before) % 2 ^ 64 ≡ after % 2 ^ 64
            → Times clock begun before offset self.old
            → Times clock begun after offset self.new }
        ensures compare { self.new.compare ≡ self.old.compare }
        ensures rise { self.new.rise ≡ self.old.rise }
    {
        self.count = self.count.wrapping_add(ticks);
    }

    /// Whether the timer's line is high.
    pub fn line(&self) -> bool
        ensures { result ≡ nat_le self.now.compare self.now.count }
    {
        self.count >= self.compare
    }
}
