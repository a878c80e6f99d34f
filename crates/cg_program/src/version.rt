//! The program's version, and the kit that it was proved with. `make` holds the kit's logic against `rt version`.

/// What `--version` tells after the program's name.
pub(crate) const VERSION: &str = "0.1.0\nproved with rattle-kit-13f logic dac8208d650f15bf";
