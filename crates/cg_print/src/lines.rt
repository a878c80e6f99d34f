//! The canonical texts of lines.
ghost use Rattle.cg_value.specs.Print.{print_flat_limit, print_flat_line, print_stat_pair, print_stat_line, print_limit_line, print_weight_line, print_target_line, print_param_pair, print_param_line, print_averages, print_nested_pair, print_nested_line};

use crate::canonical::{Canonical, append_bytes, append_labelled, append_spaced};
use cg_text::OutOfMemory;
use cg_value::{
    Averages, FlatLimit, FlatPair, LimitLine, NestedLine, NestedPair, ParamLine, ParamPair,
    StatLine, StatPair, TargetLine, WeightLine,
};

/// A line, as `anon 4096`.
impl Canonical for FlatPair {
    ghost printed = { print_flat_line };

    fn append_to(&self, out: &mut Vec<u8>) -> Result<(), OutOfMemory> {
        self.key.append_to(out)?;
        append_labelled(out, b" ", &self.number)
    }
}

/// A line, as `sev max`.
impl Canonical for FlatLimit {
    ghost printed = { print_flat_limit };

    fn append_to(&self, out: &mut Vec<u8>) -> Result<(), OutOfMemory> {
        self.key.append_to(out)?;
        append_labelled(out, b" ", &self.limit)
    }
}

/// A pair, as `rbytes=4096`.
impl Canonical for StatPair {
    ghost printed = { print_stat_pair };

    fn append_to(&self, out: &mut Vec<u8>) -> Result<(), OutOfMemory> {
        self.key.append_to(out)?;
        append_labelled(out, b"=", &self.amount)
    }
}

/// A line, as `8:0 rbytes=4096 wbytes=0`.
impl Canonical for StatLine {
    ghost printed = { print_stat_line };

    fn append_to(&self, out: &mut Vec<u8>) -> Result<(), OutOfMemory> {
        self.device.append_to(out)?;
        if self.pad {
            append_bytes(out, b" ")?;
        }
        append_spaced(out, &self.pairs)
    }
}

/// A line, as `8:0 rbps=max wbps=1048576 riops=max wiops=120`.
impl Canonical for LimitLine {
    ghost printed = { print_limit_line };

    fn append_to(&self, out: &mut Vec<u8>) -> Result<(), OutOfMemory> {
        self.device.append_to(out)?;
        append_labelled(out, b" rbps=", &self.rbps)?;
        append_labelled(out, b" wbps=", &self.wbps)?;
        append_labelled(out, b" riops=", &self.riops)?;
        append_labelled(out, b" wiops=", &self.wiops)
    }
}

/// A line, as `8:0 200`.
impl Canonical for WeightLine {
    ghost printed = { print_weight_line };

    fn append_to(&self, out: &mut Vec<u8>) -> Result<(), OutOfMemory> {
        self.device.append_to(out)?;
        append_labelled(out, b" ", &self.weight)
    }
}

/// A line, as `8:0 target=75`.
impl Canonical for TargetLine {
    ghost printed = { print_target_line };

    fn append_to(&self, out: &mut Vec<u8>) -> Result<(), OutOfMemory> {
        self.device.append_to(out)?;
        append_labelled(out, b" target=", &self.target)
    }
}

/// A pair, as `ctrl=user`.
impl Canonical for ParamPair {
    ghost printed = { print_param_pair };

    fn append_to(&self, out: &mut Vec<u8>) -> Result<(), OutOfMemory> {
        self.key.append_to(out)?;
        append_labelled(out, b"=", &self.value)
    }
}

/// A line, as `8:0 ctrl=user max=150.00`.
impl Canonical for ParamLine {
    ghost printed = { print_param_line };

    fn append_to(&self, out: &mut Vec<u8>) -> Result<(), OutOfMemory> {
        self.device.append_to(out)?;
        append_spaced(out, &self.params)
    }
}

/// What follows the first word of a line, as ` avg10=0.12 avg60=1.00 avg300=0.00 total=77`.
impl Canonical for Averages {
    ghost printed = { print_averages };

    fn append_to(&self, out: &mut Vec<u8>) -> Result<(), OutOfMemory> {
        append_labelled(out, b" avg10=", &self.avg10)?;
        append_labelled(out, b" avg60=", &self.avg60)?;
        append_labelled(out, b" avg300=", &self.avg300)?;
        append_labelled(out, b" total=", &self.total)
    }
}

/// A pair, as `N0=4096`.
impl Canonical for NestedPair {
    ghost printed = { print_nested_pair };

    fn append_to(&self, out: &mut Vec<u8>) -> Result<(), OutOfMemory> {
        self.key.append_to(out)?;
        append_labelled(out, b"=", &self.number)
    }
}

/// A line, as `anon N0=4096 N1=0`.
impl Canonical for NestedLine {
    ghost printed = { print_nested_line };

    fn append_to(&self, out: &mut Vec<u8>) -> Result<(), OutOfMemory> {
        self.key.append_to(out)?;
        append_spaced(out, &self.pairs)
    }
}
