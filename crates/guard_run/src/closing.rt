//! What stands when the run of a job is over.
ghost use Rattle.std.specs.Prelude.{◌≡◌, ◌<◌, length};
ghost use Rattle.guard_run.specs.Closings.{IsAnalysisAt, appended_of, facts_at, readers_of, replicas_of, taken_of};

use crate::Replica;
use analysis_model::RunFacts;
use analysis_set::AnyAnalysis;
use turn_run::Ending;

/// What stands when the run of a job is over: the log, the replicas that have read it to its close, and the gate.
#[derive(Drop)]
pub struct Closing {
    pub(crate) over: turn_run::Closing<Replica>,
}

impl Closing {
    /// How many records were appended to the log.
    pub fn appended(&self) -> u64
        ensures { result ≡ appended_of self.now }
    {
        self.over.appended()
    }

    /// How many replicas there are.
    pub fn replicas(&self) -> u32
        ensures { result ≡ readers_of self.now }
    {
        self.over.readers()
    }

    /// How many records the replica with this number has taken.
    pub fn taken(&self, replica: u32) -> u64
        requires { replica < readers_of self.now }
        ensures { result ≡ taken_of self.now replica }
    {
        self.over.taken(replica)
    }

    /// The analysis of the replica with this number.
    pub fn analysis(&self, replica: u32) -> &AnyAnalysis
        requires { replica < length (replicas_of self.now) }
        ensures { IsAnalysisAt self.now replica result.now }
    {
        self.over.follower(replica).analysis()
    }

    /// What the head of the report tells of the run; None exactly where the log has no end.
    pub fn facts(&self) -> Option<RunFacts>
        ensures { result ≡ facts_at self.now }
    {
        let Ending { steps, cause } = self.over.ending()?;
        Some(RunFacts {
            steps,
            end: cause,
            issued: self.over.issued(),
            released: self.over.released(),
            items: self.over.appended(),
        })
    }
}
