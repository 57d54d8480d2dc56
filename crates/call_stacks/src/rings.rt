//! The rings of frames, one a context.
ghost use Rattle.std.specs.Prelude.{◌≡◌, [], replicate, IfOk};
ghost use Rattle.circular_buffer.specs.Buffer.{buffer};
ghost use Rattle.analysis_model.specs.Calls.{frames_kept};

use circular_buffer::HeapCircularBuffer;
use memory_map::NoMemory;
use run_events::CONTEXTS;
use std::alloc::Global;

/// The return addresses that a context waits for, the newest first.
pub type Frames = HeapCircularBuffer<u32>;

// How many return addresses a context keeps; the oldest one gives way to the next.
const FRAMES: usize = 4096;

/// An empty ring for each context.
#[tactic(auto, unfolding(analysis_model::specs::Calls::frames_kept))]
pub fn empty_rings(alloc: Global) -> Result<Vec<Frames>, NoMemory>
    ensures { IfOk result (λ rings. rings.items ≡ replicate 64 (buffer [] frames_kept)) }
{
    let mut rings = Vec::new(alloc);
    for _context in 0..CONTEXTS {
        rings.push(Frames::with_capacity(alloc, FRAMES)?)?;
    }
    Ok(rings)
}
