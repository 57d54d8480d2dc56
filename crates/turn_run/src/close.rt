//! How a run is read to its close.
ghost use Rattle.std.specs.Prelude.{◌≡◌, ◌<◌, ◌≤◌, true, false, length};
ghost use Rattle.gate_core.specs.Core.{CoreState};
ghost use Rattle.turn_run.specs.Course.{Course};
ghost use Rattle.turn_run.specs.Following.{AreSame};
ghost use Rattle.turn_run.specs.Closings.{IsReadOut, IsStopped};
ghost use Rattle.turn_run.specs.Openings.{followers_of};
ghost use Rattle.turn_run.specs.Periods.{HasReadAll, HasReadUp, IsBrokenRun};
ghost use Rattle.turn_run.specs.Runs.{AllRead, IsBesides, IsBroken, IsFollowed, IsFollowedRun};

use crate::{Follower, Parts, Turn};
use any_machine::Recorder;
use gate_core::Hub;

impl<M: Recorder, F: Follower> Parts<M, F> {
    // Whether the log is closed, and each follower has read it to the close.
    pub(crate) fn is_read_out(&self) -> bool
        requires readers { length (followers_of self.now) ≡ length self.now.hub.taken }
        requires few { length (followers_of self.now) ≤ 8 }
        ensures yes { result ≡ true → IsReadOut self.now }
        ensures no { result ≡ false → IsReadOut self.now → ⊥ }
    {
        self.hub.is_closed() && is_all_read(&self.hub, self.followers.len() as u32)
    }

    // Closes the log of a run whose put has failed, where it is still open, and has each follower read it to the close.
    pub(crate) fn stop(&mut self)
        requires { IsBrokenRun M.recording F.following self.old }
        ensures stopped { (c : Course) (core : CoreState)
            → IsBroken M.recording F.following c core self.old
            → IsStopped M.recording F.following c core.appended core.released self.new }
        ensures made { AreSame F.following (followers_of self.old) (followers_of self.new) }
    {
        self.shut();
        self.read_all();
    }

    // Closes the log of a run whose put has failed, where it is still open.
    fn shut(&mut self)
        requires { IsBrokenRun M.recording F.following self.old }
        ensures broken { (c : Course) (core : CoreState)
            → IsBroken M.recording F.following c core self.old
            → IsBroken M.recording F.following c (record core { closed = true }) self.new }
        ensures made { AreSame F.following (followers_of self.old) (followers_of self.new) }
    {
        if self.hub.is_closed() {
            return;
        }
        self.hub.close();
    }

    // Has each follower read all of the log.
    fn read_all(&mut self)
        requires { IsFollowedRun F.following self.old }
        ensures read { (c : Course) (core : CoreState)
            → IsFollowed F.following c core self.old
            → HasReadAll F.following c core self.new }
        ensures besides { IsBesides self.old self.new }
        ensures made { AreSame F.following (followers_of self.old) (followers_of self.new) }
    {
        for reader in 0..self.followers.len() as u32 {
            self.read_up(reader);
        }
    }

    // Has the follower with this number read all of the log.
    fn read_up(&mut self, reader: u32)
        requires followed { IsFollowedRun F.following self.old }
        requires there { reader < length (followers_of self.old) }
        ensures read { (c : Course) (core : CoreState)
            → IsFollowed F.following c core self.old
            → HasReadUp F.following c core reader self.new }
        ensures besides { IsBesides self.old self.new }
        ensures made { AreSame F.following (followers_of self.old) (followers_of self.new) }
    {
        'taking: loop {
            match self.read(reader) {
                Turn::Took => {}
                Turn::Empty => return,
                Turn::Closed => return,
            }
        }
    }
}

// Whether each of the log's readers has taken all of it.
fn is_all_read(hub: &Hub, readers: u32) -> bool
    requires { readers ≡ length hub.now.taken }
    ensures yes { result ≡ true → AllRead hub.now }
    ensures no { result ≡ false → AllRead hub.now → ⊥ }
{
    for reader in 0..readers {
        if hub.taken(reader) != hub.appended() {
            return false;
        }
    }
    true
}
