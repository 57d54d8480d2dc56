//! What is left of a step once its instruction was done.
use run_events::Access;

/// What is left to be told of an instruction, once it has written its register, the CSRs, RAM and the reservation. The
/// pc and the counters are still as before.
#[derive(Clone, Copy)]
pub enum Done {
    /// The instruction is not a plain one, and nothing was done.
    Other,
    /// It raised an exception, and wrote nothing.
    Raised { cause: u32, value: u32 },
    /// It accessed no data. `result` is what it wrote to rd, and 0 where it wrote nothing; `next` is the next pc.
    Quiet { result: u32, next: u32 },
    /// It accessed data; the instruction after it comes next.
    Accessed { result: u32, access: Access },
}
