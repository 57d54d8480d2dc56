//! Guests, word by word.

/// It sends H.
pub const HELLO: [u32; 5] = [0x10000537, 0x04800593, 0x00b50023, 0x10100637, 0x00062023];

/// It announces that lock 9 guards the serial data register, and sends A before and twice after, without the lock.
pub const UNGUARDED: [u32; 10] = [
    0x10000537, 0x00100593, 0x00900613, 0x04100293, 0x00550023, 0x00702013, 0x00550023, 0x00550023,
    0x10100637, 0x00062023,
];

/// It waits for the timer's interrupt, whose handler ends the run.
pub const TIMED: [u32; 18] = [
    0x800002b7, 0x04028293, 0x30529073, 0x08000313, 0x30431073, 0x020043b7, 0x00500313, 0x0003a223,
    0x0063a023, 0x30046073, 0x0000006f, 0, 0, 0, 0, 0, 0x10100637, 0x00062023,
];

/// It masks its interrupts, and sends what mip shows at step 3.
pub const MASKING: [u32; 8] = [
    0x100002b7, 0x00100313, 0x0062a423, 0x344023f3, 0x0053d393, 0x00728023, 0x10100637, 0x00062023,
];

/// It reads sector 0 to 80000200, and sends its first byte.
pub const READING: [u32; 13] = [
    0x100012b7, 0x80000337, 0x20030313, 0x0062a223, 0x00100393, 0x0072a423, 0x00c2ae03, 0xfe7e0ee3,
    0x00032e83, 0x100002b7, 0x01d28023, 0x10100637, 0x00062023,
];

/// It takes a byte by way of mscratch into the address of a jump.
pub const JUMPING: [u32; 11] = [
    0x100002b7, 0x0002c303, 0x34031073, 0x340023f3, 0xf9f38393, 0x00000e17, 0x01c383b3, 0x01038067,
    0, 0x10100637, 0x00062023,
];

/// The same, but the byte is replaced by one that does not depend on it.
pub const JUMPING_CLEAN: [u32; 11] = [
    0x100002b7, 0x0002c303, 0x34031073, 0x340023f3, 0x0073c3b3, 0x00000e17, 0x01c383b3, 0x01038067,
    0, 0x10100637, 0x00062023,
];

/// It sends 4,300 dots.
pub const DOTS: [u32; 9] = [
    0x100002b7, 0x00001337, 0x0cc30313, 0x02e00393, 0x00728023, 0xfff30313, 0xfe031ce3, 0x10100637,
    0x00062023,
];

/// It announces a block, sends a line back through it, and frees it.
pub const ECHO: [u32; 18] = [
    0x100002b7, 0x80001537, 0x01000593, 0x00102013, 0x00050313, 0x0042a383, 0x0013f393, 0xfe038ce3,
    0x0002ce03, 0x01c30023, 0x00034e83, 0x01d28023, 0x00130313, 0x00a00f13, 0xfdee9ee3, 0x00202013,
    0x10100637, 0x00062023,
];
