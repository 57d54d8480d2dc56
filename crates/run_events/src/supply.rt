//! What a step takes from outside.

/// What a device register gives to a load: its whole word, of which the instruction takes the low bits, and its mark,
/// which is 0 for unmarked input.
#[derive(Clone, Copy, Debug, PartialEq, Eq)]
pub struct Supplied {
    pub value: u32,
    pub mark: u8,
}

/// A word that the disk writes at a byte address of RAM before a step, with its mark.
#[derive(Clone, Copy, Debug, PartialEq, Eq)]
pub struct DmaWord {
    pub address: u32,
    pub word: u32,
    pub mark: u8,
}

/// What a step has to be given before it can be done.
#[derive(Clone, Copy, Debug, PartialEq, Eq)]
pub enum Need {
    /// It loads the device register at this byte address, `width` bytes (1, 2 or 4) of it.
    Load { address: u32, width: u32 },
    /// It loads no device register.
    Nothing,
}
