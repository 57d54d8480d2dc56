//! The run of a job by turns.
ghost use Rattle.std.specs.Prelude.{ℕ, length, OnOk, OnErr};
ghost use Rattle.guard_run.specs.Closings.{IsCutRun, IsWholeRun};
ghost use Rattle.guard_run.specs.Openings.{HasEnded, HasStopped, IsEnded, IsOpened, IsOpenedRun, IsReadOut, IsStopped, StopsBy, TakesTurns, replicas_in};
ghost use Rattle.job_model.specs.Job.{Job};
ghost use Rattle.run_settings.specs.Patterns.{IsPattern};

use crate::{Closing, Parts};
use after_edge::Sink;
use output_gate::SinkFault;
use run_settings::Letter;

/// Goes on with the run of a job, a turn for each letter of the pattern, which is repeated until the log is closed and each
/// replica has read it to the close; then the gate has a last turn. SinkFault comes where a put failed: the log is closed
/// there, no further put is made, and each replica reads to the close. It takes no memory.
pub fn run_turns<O: Sink>(parts: &mut Parts, turns: &[Letter], out: &mut O) -> Result<(), SinkFault>
    requires opened { IsOpenedRun parts.old }
    requires pattern { IsPattern (length (replicas_in parts.old)) turns.now }
    ensures read_out { IsReadOut parts.new }
    ensures ok { OnOk result ((job : Job)
        → IsOpened job parts.old
        → HasEnded job parts.new O.told out.old out.new) }
    ensures err { OnErr result ((job : Job)
        → IsOpened job parts.old
        → HasStopped job parts.new O.told out.old out.new) }
    ensures turns { OnOk result (TakesTurns O.told turns.now parts.old parts.new out.old out.new) }
    ensures stops { OnErr result (StopsBy O.told turns.now parts.old parts.new out.old out.new) }
{
    turn_run::run_turns(&mut parts.run, turns, out)
}

impl Parts {
    /// What stands of a run that is over.
    pub fn finish(self) -> Closing
        requires { IsReadOut self }
        ensures whole { (job : Job) → IsEnded job self → IsWholeRun job result }
        ensures cut { (job : Job) (count put : ℕ)
            → IsStopped job count put self
            → IsCutRun job count put result }
    {
        Closing {
            over: self.run.finish(),
        }
    }
}
