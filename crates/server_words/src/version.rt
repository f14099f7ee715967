//! Which program this is. Nothing is known at the time of a build but what stands here, so the gate compares both with what
//! built it.

/// The version of the program, and the logic of the toolchain that proves it: more than one kit has it.
pub const VERSION: &str = "0.1.0 (rattle logic dac8208d650f15bf)";
