//! The version, which the program prints and the library for C gives.

/// The version, and in a second line the logic of the toolchain that the sources are written for, as `rt version` names
/// it.
pub const VERSION: &str = "0.2.0
logic dac8208d650f15bf";
