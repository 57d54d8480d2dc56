//! What a store to a device register does outside the board.

/// What a store to a device register does outside the board.
#[derive(Clone, Copy, Debug, PartialEq, Eq)]
pub enum Effect {
    /// Nothing.
    Quiet,
    /// This byte goes out on the serial line.
    Byte { value: u8 },
    /// The run ends after this step with the guest's status.
    Power { status: u8 },
}
