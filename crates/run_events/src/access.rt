//! What an instruction does to memory and devices.
ghost use Rattle.std.specs.Prelude.{◌≡◌};
ghost use Rattle.run_events.specs.Access as accesses;

/// What the argument registers x10, x11 and x12 held before an instruction.
#[derive(Clone, Copy, Debug, PartialEq, Eq)]
pub struct Told {
    /// x10.
    pub a0: u32,
    /// x11.
    pub a1: u32,
    /// x12.
    pub a2: u32,
}

/// The one data access of an instruction. Addresses are byte addresses, widths are in bytes (1, 2 or 4).
#[derive(Clone, Copy, Debug, PartialEq, Eq)]
pub enum Access {
    /// The instruction accessed no data. A failed SC is quiet.
    Quiet,
    /// A load; LR is one. `value` is the bytes read, extended by zero; of a device's load the whole word that was
    /// supplied. `mark` is 1 for marked input of a device, else 0.
    Load {
        address: u32,
        width: u32,
        value: u32,
        device: bool,
        mark: u8,
    },
    /// A store; a successful SC is one. `value` is the stored low bytes, extended by zero.
    Store {
        address: u32,
        width: u32,
        value: u32,
        device: bool,
    },
    /// An atomic memory operation on a word of RAM: it read `old` and stored `new`.
    Swap {
        address: u32,
        old: u32,
        new: u32,
    },
}

impl Access {
    /// The address of the first byte that is touched; 0 where none is.
    pub fn touched_from(&self) -> u32
        ensures { result ≡ accesses.touched_from self.now }
    {
        match self {
            Access::Quiet => 0,
            Access::Load { address, .. }
            | Access::Store { address, .. }
            | Access::Swap { address, .. } => *address,
        }
    }

    /// How many bytes are touched; 0 where none is.
    pub fn touched_len(&self) -> u32
        ensures { result ≡ accesses.touched_len self.now }
    {
        match self {
            Access::Quiet => 0,
            Access::Load { width, .. } | Access::Store { width, .. } => *width,
            Access::Swap { .. } => 4,
        }
    }

    /// Whether it is an access to a device register.
    pub fn is_of_device(&self) -> bool
        ensures { result ≡ accesses.is_of_device self.now }
    {
        match self {
            Access::Load { device, .. } | Access::Store { device, .. } => *device,
            Access::Quiet | Access::Swap { .. } => false,
        }
    }
}
