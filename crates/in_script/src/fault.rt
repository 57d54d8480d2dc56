//! What may be wrong with a script.
ghost use Rattle.std.specs.Prelude.{◌≡◌};
ghost use Rattle.in_script.specs.declared.fault.Broken.TheVariants.{NoMemory};
ghost use Rattle.in_script.specs.Reads.{fault_at};

use std::alloc::{AllocError, AllocFailed};

/// Why a file is no script: what is wrong with its first broken line. Lines count from 1. Where several things are
/// wrong with that line, it is the first of them in this order.
#[derive(Clone, Copy, Debug, PartialEq, Eq)]
pub enum ScriptFault {
    /// The line is none of a script's lines, or stands where it may not.
    BadLine { line: u32 },
    /// Digits that have a leading zero or are out of range, or a first sector above the last.
    BadNumber { line: u32 },
    /// The entry's step is below the one before.
    Falling { line: u32 },
    /// There are 65,536 entries or 256 spans of sectors before it.
    TooMany { line: u32 },
    /// There was no memory.
    NoMemory,
}

// What is wrong with one line, or that there was no memory for it. `ScriptFault` says what each means.
#[derive(Clone, Copy)]
pub(crate) enum Broken {
    BadLine,
    BadNumber,
    Falling,
    TooMany,
    NoMemory,
}

impl Broken {
    // The fault of a script whose first broken line has this number.
    pub(crate) fn at(self, line: u32) -> ScriptFault
        ensures { result ≡ fault_at self line }
    {
        match self {
            Broken::BadLine => ScriptFault::BadLine { line },
            Broken::BadNumber => ScriptFault::BadNumber { line },
            Broken::Falling => ScriptFault::Falling { line },
            Broken::TooMany => ScriptFault::TooMany { line },
            Broken::NoMemory => ScriptFault::NoMemory,
        }
    }
}

impl From<AllocError> for Broken {
    ghost from_gives = { λ _ e. e ≡ NoMemory };

    fn from(_e: AllocError) -> Broken {
        Broken::NoMemory
    }
}

impl<T: Drop> From<AllocFailed<T>> for Broken {
    ghost from_gives = { λ _ e. e ≡ NoMemory };

    fn from(_e: AllocFailed<T>) -> Broken {
        Broken::NoMemory
    }
}
