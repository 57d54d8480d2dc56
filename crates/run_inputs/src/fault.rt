//! Why the files of a run are not taken.
ghost use Rattle.std.specs.Prelude.{◌≡◌};
ghost use Rattle.run_inputs.specs.Faults.{of_image, of_script};

use elf_image::ImageFault;
use in_script::ScriptFault;

/// Why the files of a run are not taken, in the order in which it is looked for.
#[derive(Clone, Copy, Debug, PartialEq, Eq)]
pub enum InputFault {
    /// A file is absent, or the files failed.
    Files,
    /// The image's file is longer than its limit.
    ImageTooLong,
    /// The script's file is longer than its limit.
    ScriptTooLong,
    /// The disk's file is longer than its limit.
    DiskTooLong,
    /// The image's file gives no image. It is never `NoMemory`.
    Image(ImageFault),
    /// The script's file is no script. It is never `NoMemory`.
    Script(ScriptFault),
    /// There was no memory, after some of the image was read. No clause says that the allocator refused any.
    NoMemory,
}

impl InputFault {
    // The fault of files whose image has this one.
    pub(crate) fn of_image(fault: ImageFault) -> InputFault
        ensures { result ≡ of_image fault }
    {
        match fault {
            ImageFault::NoMemory => InputFault::NoMemory,
            _ => InputFault::Image(fault),
        }
    }

    // The fault of files whose script has this one.
    pub(crate) fn of_script(fault: ScriptFault) -> InputFault
        ensures { result ≡ of_script fault }
    {
        match fault {
            ScriptFault::NoMemory => InputFault::NoMemory,
            _ => InputFault::Script(fault),
        }
    }
}
