//! Refusals.
ghost use Rattle.std.specs.Prelude.{◌≡◌};
ghost use Rattle.refusals.specs.Status.{input_status, status_of};
ghost use Rattle.refusals.specs.Lines.{refusal_line};

use crate::lines;
use command_words::WordsFault;
use run_inputs::InputFault;
use text_line::Line;

/// Why a call of the program does nothing.
#[derive(Clone, Copy, Debug, PartialEq, Eq)]
pub enum Refusal {
    /// The words are no job.
    Words(WordsFault),
    /// The words are a job of a kind that is not built.
    NotBuilt,
    /// The files of a run are not taken, or there was no memory for them.
    Inputs(InputFault),
    /// There was no memory, for the words or to open the run. No clause says that the allocator refused any.
    NoMemory,
}

impl Refusal {
    /// The exit status: 2 for words, 3 for an image or a disk, 4 for a script, 5 for files that are absent or failed, 9
    /// for no memory, 10 for what is not built.
    pub fn status(&self) -> u8
        ensures { result ≡ status_of self.now }
    {
        match self {
            Refusal::Words(_) => 2,
            Refusal::NotBuilt => 10,
            Refusal::Inputs(fault) => input_status(*fault),
            Refusal::NoMemory => 9,
        }
    }

    /// The line that tells it. It takes no memory.
    pub fn line(&self) -> Line
        ensures { result ≡ refusal_line self.now }
    {
        match self {
            Refusal::Words(fault) => lines::words(*fault),
            Refusal::NotBuilt => lines::not_built(),
            Refusal::Inputs(fault) => lines::inputs(*fault),
            Refusal::NoMemory => lines::no_memory(),
        }
    }
}

// The exit status of files that are not taken.
fn input_status(fault: InputFault) -> u8
    ensures { result ≡ input_status fault }
{
    match fault {
        InputFault::ImageTooLong | InputFault::DiskTooLong | InputFault::Image(_) => 3,
        InputFault::ScriptTooLong | InputFault::Script(_) => 4,
        InputFault::Files => 5,
        InputFault::NoMemory => 9,
    }
}
