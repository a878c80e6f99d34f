//! How many lines values have.
ghost use Rattle.std.specs.Prelude.{◌≡◌, length};
ghost use Rattle.cg_value.specs.Print.{print_lines};

use crate::value::Value;

impl Value {
    /// How many lines its text has. That of no words has one, which is empty. It takes no memory.
    pub fn line_count(&self) -> u64
        ensures { result ≡ length (print_lines self.now) }
    {
        let count = match self {
            Value::Numbers(numbers) => numbers.as_slice().len(),
            Value::Flat(flat) => flat.pairs().len(),
            Value::FlatLimits(pairs) => pairs.len(),
            Value::DeviceStats(lines) => lines.as_slice().len(),
            Value::DeviceLimits(lines) => lines.as_slice().len(),
            Value::DeviceWeights { lines, .. } => 1 + lines.as_slice().len(),
            Value::DeviceTargets(lines) => lines.as_slice().len(),
            Value::DeviceParams(lines) => lines.as_slice().len(),
            Value::Pressure { some, full } => {
                usize::from(some.is_some()) + usize::from(full.is_some())
            }
            Value::Nested(lines) => lines.len(),
            Value::Raw(lines) => lines.len(),
            Value::Number(_)
            | Value::Signed(_)
            | Value::Limit(_)
            | Value::Mode(_)
            | Value::Class(_)
            | Value::CpuMax { .. }
            | Value::Clamp(_)
            | Value::Words(_)
            | Value::Set(_)
            | Value::NodeStats { .. }
            | Value::Partition { .. } => 1,
        };
        count as u64
    }
}
