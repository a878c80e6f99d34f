//! A whole file of one line.
ghost use Rattle.std.specs.Prelude.{◌≡◌};
ghost use Rattle.cg_value.specs.Held.{held_of_value};

use cg_value::Value;

/// The value of a whole file of one line, which holds nothing.
#[derive(Drop)]
pub(crate) struct WholeFile {
    pub(crate) value: Value,
    ghost light: { held_of_value value ≡ 0 },
}
