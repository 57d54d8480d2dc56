//! A run by turns, from its first turn to its close.
ghost use Rattle.std.specs.Prelude.{length, OnOk, OnErr};
ghost use Rattle.gate_core.specs.Core.{CoreState};
ghost use Rattle.run_settings.specs.Patterns.{IsLetter, IsPattern};
ghost use Rattle.turn_run.specs.Course.{Course};
ghost use Rattle.turn_run.specs.Following.{AreSame};
ghost use Rattle.turn_run.specs.Closings.{HasEnded, HasStopped, IsReadOut};
ghost use Rattle.turn_run.specs.Openings.{IsOpened, IsOpenedRun, followers_of};
ghost use Rattle.turn_run.specs.Periods.{HaveMoved, Moves};
ghost use Rattle.turn_run.specs.Runs.{HasCome, HasCrashed, IsAt, IsSoundRun};
ghost use Rattle.turn_run.specs.Turns.{AreTurns, Fails, FailsBy, FailsIn, IsTurn, StopsBy, TakesTurns};

use crate::{Follower, Parts};
use after_edge::Sink;
use any_machine::Recorder;
use output_gate::SinkFault;
use run_settings::Letter;

/// Goes on with a run, a turn for each letter of the pattern, which is repeated until the log is closed and each follower
/// has read it to the close; then the gate has a last turn. SinkFault comes where a put failed: the log is closed there,
/// no further put is made, and each follower reads to the close. It takes no memory.
pub fn run_turns<M: Recorder, F: Follower, O: Sink>(
    parts: &mut Parts<M, F>,
    turns: &[Letter],
    out: &mut O,
) -> Result<(), SinkFault>
    requires opened { IsOpenedRun M.recording F.following parts.old }
    requires pattern { IsPattern (length (followers_of parts.old)) turns.now }
    ensures read_out { IsReadOut parts.new }
    ensures ok { OnOk result ((c : Course)
        → IsOpened M.recording F.following c parts.old
        → HasEnded M.recording F.following c parts.new O.told out.old out.new) }
    ensures err { OnErr result ((c : Course)
        → IsOpened M.recording F.following c parts.old
        → HasStopped M.recording F.following c parts.new O.told out.old out.new) }
    ensures turns { OnOk result (TakesTurns M.recording F.following O.told turns.now
        parts.old parts.new out.old out.new) }
    ensures stops { OnErr result (StopsBy M.recording F.following O.told turns.now
        parts.old parts.new out.old out.new) }
    ensures made { AreSame F.following (followers_of parts.old) (followers_of parts.new) }
{
    match take_all_turns(parts, turns, out) {
        Ok(()) => Ok(()),
        Err(fault) => {
            parts.stop();
            Err(fault)
        }
    }
}

// Takes turns to the end of the run, or to a put that fails.
fn take_all_turns<M: Recorder, F: Follower, O: Sink>(
    parts: &mut Parts<M, F>,
    turns: &[Letter],
    out: &mut O,
) -> Result<(), SinkFault>
    requires opened { IsOpenedRun M.recording F.following parts.old }
    requires pattern { IsPattern (length (followers_of parts.old)) turns.now }
    ensures ok { OnOk result ((c : Course)
        → IsOpened M.recording F.following c parts.old
        → HasEnded M.recording F.following c parts.new O.told out.old out.new) }
    ensures err { OnErr result ((c : Course)
        → IsOpened M.recording F.following c parts.old
        → HasCrashed M.recording F.following c 0 parts.new O.told out.old out.new) }
    ensures turns { OnOk result (TakesTurns M.recording F.following O.told turns.now
        parts.old parts.new out.old out.new) }
    ensures fails { OnErr result (FailsBy M.recording F.following O.told turns.now
        parts.old parts.new out.old out.new) }
    ensures made { AreSame F.following (followers_of parts.old) (followers_of parts.new) }
{
    while !parts.is_read_out() {
        match take_period(parts, turns, out) {
            Ok(()) => {}
            Err(fault) => return Err(fault),
        }
    }
    match parts.release(out) {
        Ok(()) => Ok(()),
        Err(fault) => Err(fault),
    }
}

// Takes a turn for each letter of the pattern. Where nothing has moved then, there was nothing to do in any of them.
fn take_period<M: Recorder, F: Follower, O: Sink>(
    parts: &mut Parts<M, F>,
    turns: &[Letter],
    out: &mut O,
) -> Result<(), SinkFault>
    requires run { IsSoundRun M.recording F.following parts.old }
    requires pattern { IsPattern (length (followers_of parts.old)) turns.now }
    ensures come { OnOk result ((c : Course) (core : CoreState)
        → IsAt M.recording F.following c core parts.old
        → HasCome M.recording F.following c core.released parts.new O.told out.old out.new) }
    ensures moved { OnOk result (HaveMoved M.recording F.following turns.now parts.old parts.new) }
    ensures turns { OnOk result (AreTurns M.recording F.following O.told turns.now
        parts.old parts.new out.old out.new) }
    ensures fails { OnErr result (FailsIn M.recording F.following O.told turns.now
        parts.old parts.new out.old out.new) }
    ensures err { OnErr result ((c : Course) (core : CoreState)
        → IsAt M.recording F.following c core parts.old
        → HasCrashed M.recording F.following c core.released parts.new O.told out.old out.new) }
    ensures made { AreSame F.following (followers_of parts.old) (followers_of parts.new) }
{
    for letter in turns {
        match take_turn(parts, *letter, out) {
            Ok(()) => {}
            Err(fault) => return Err(fault),
        }
    }
    Ok(())
}

// A turn of the one whose letter it is.
fn take_turn<M: Recorder, F: Follower, O: Sink>(
    parts: &mut Parts<M, F>,
    letter: Letter,
    out: &mut O,
) -> Result<(), SinkFault>
    requires run { IsSoundRun M.recording F.following parts.old }
    requires there { IsLetter (length (followers_of parts.old)) letter }
    ensures come { OnOk result ((c : Course) (core : CoreState)
        → IsAt M.recording F.following c core parts.old
        → HasCome M.recording F.following c core.released parts.new O.told out.old out.new) }
    ensures moves { OnOk result (Moves M.recording F.following letter parts.old parts.new) }
    ensures turn { OnOk result (IsTurn M.recording F.following O.told letter
        parts.old parts.new out.old out.new) }
    ensures fails { OnErr result (Fails M.recording F.following O.told letter
        parts.old parts.new out.old out.new) }
    ensures err { OnErr result ((c : Course) (core : CoreState)
        → IsAt M.recording F.following c core parts.old
        → HasCrashed M.recording F.following c core.released parts.new O.told out.old out.new) }
    ensures made { AreSame F.following (followers_of parts.old) (followers_of parts.new) }
{
    match letter {
        Letter::Record => {
            parts.append_next();
            Ok(())
        }
        Letter::Read(reader) => {
            parts.read(reader);
            Ok(())
        }
        Letter::Release => match parts.release(out) {
            Ok(()) => Ok(()),
            Err(fault) => Err(fault),
        },
    }
}
