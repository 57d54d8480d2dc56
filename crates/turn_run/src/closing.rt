//! What stands when a run is over.
ghost use Rattle.std.specs.Prelude.{◌≡◌, ◌<◌, ℕ, length, slice_get, Some};
ghost use Rattle.turn_run.specs.Closings.{IsCutRun, IsWholeRun, IsEnded, IsReadOut, IsStopped, appended_of, ending_of, followers_of, issued_of, readers_of, released_of, taken_of};
ghost use Rattle.turn_run.specs.Course.{Course};
ghost use Rattle.turn_run.specs.Openings.{followers_of as followers_in};

use crate::{Ending, Follower, Parts};
use any_machine::Recorder;
use gate_core::Hub;
use output_gate::OutputGate;

/// What stands when a run is over: the log, the followers that have read it to its close, and the gate.
#[derive(Drop)]
pub struct Closing<F: Follower> {
    pub(crate) hub: Hub,
    pub(crate) followers: Vec<F>,
    pub(crate) gate: OutputGate,
    pub(crate) end: Option<Ending>,
}

impl<F: Follower> Closing<F> {
    /// How many records were appended to the log.
    pub fn appended(&self) -> u64
        ensures { result ≡ appended_of self.now }
    {
        self.hub.appended()
    }

    /// How many readers the log has, each of which is a follower.
    pub fn readers(&self) -> u32
        ensures { result ≡ readers_of self.now }
    {
        self.hub.readers()
    }

    /// How many records the follower with this number has taken.
    pub fn taken(&self, follower: u32) -> u64
        requires { follower < readers_of self.now }
        ensures { result ≡ taken_of self.now follower }
    {
        self.hub.taken(follower)
    }

    /// The follower with this number.
    pub fn follower(&self, number: u32) -> &F
        requires { number < length (followers_of self.now) }
        ensures { slice_get (followers_of self.now) number ≡ Some result.now }
    {
        &self.followers[number as usize]
    }

    /// How the run ended; None exactly where its log has no end.
    pub fn ending(&self) -> Option<Ending>
        ensures { result ≡ ending_of self.now }
    {
        self.end
    }

    /// How many bytes of output the records of the log let go.
    pub fn issued(&self) -> u32
        ensures { result ≡ issued_of self.now }
    {
        self.gate.issued()
    }

    /// How many of them went out by puts that did not fail.
    pub fn released(&self) -> u32
        ensures { result ≡ released_of self.now }
    {
        self.gate.released()
    }
}

impl<M: Recorder, F: Follower> Parts<M, F> {
    /// What stands of a run whose log each follower has read to its close.
    pub fn finish(self) -> Closing<F>
        requires { IsReadOut self }
        ensures whole { (c : Course)
            → IsEnded M.recording F.following c self
            → IsWholeRun F.following c result }
        ensures cut { (c : Course) (count put : ℕ)
            → IsStopped M.recording F.following c count put self
            → IsCutRun F.following c count put result }
        ensures followers { followers_of result ≡ followers_in self }
    {
        Closing {
            hub: self.hub,
            followers: self.followers,
            gate: self.gate,
            end: self.end,
        }
    }
}
