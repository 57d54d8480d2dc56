//! What a run is asked for.
use run_settings::Kinds;

/// How a guest is run, and which analyses look at it.
#[derive(Clone, Copy, Debug, PartialEq, Eq)]
pub struct RunJob {
    /// The RAM of the guest in KiB, 64 to 16,384.
    pub ram_kib: u32,
    /// The most steps, at most 1,000,000,000.
    pub limit: u32,
    /// How many records the log holds at a time: a power of two from 16 to 65,536.
    pub cap: u32,
    /// The analyses, each of which has a replica, in this order.
    pub kinds: Kinds,
    /// Those of them that have to approve what goes out; none in best-effort mode.
    pub required: Kinds,
}
