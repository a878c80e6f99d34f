//! The canonical text of a setting.
ghost use Rattle.std.specs.Prelude.{◌≡◌, ◌++◌, ◌∷◌, IfOk, OnOk, codes, decimal};
ghost use Rattle.cg_value.specs.Kind.{IsWriteForm};
ghost use Rattle.cg_value.specs.Settings.{FitsWrite, WriteText};
ghost use Rattle.cg_value.specs.Print.{print_limit, print_device, print_given, print_device_weight, print_setting_line, print_setting_of};
ghost use Rattle.cg_value.specs.WriteLine.{pressure_word};
ghost use Rattle.cg_value.specs.declared.kind.WriteForm.{WriteForm};

use crate::canonical::{Canonical, append_bytes, append_given, append_labelled, append_newline};
use cg_text::{Device, Limit, OutOfMemory};
use cg_value::Setting;
use std::alloc::Global;

/// The canonical text of a setting: what one write of it holds, which is one line with its newline. It depends on the
/// setting alone: sizes in bytes, two decimals, the limits of a device in one order, and the maximal ranges of a set in
/// order. `OutOfMemory` where no memory is left.
pub fn print_setting(alloc: Global, setting: &Setting) -> Result<Vec<u8>, OutOfMemory>
    ensures text { IfOk result (λ text. text.items ≡ print_setting_of setting.now) }
    ensures in_grammar { IfOk result (λ text. (kind : WriteForm) →
        IsWriteForm kind → FitsWrite kind setting.now → WriteText kind setting.now text.items) }
{
    let mut text = Vec::new(alloc);
    append_setting(&mut text, setting)?;
    append_newline(&mut text)?;
    Ok(text)
}

/// Adds the canonical line of a setting, without its newline.
pub(crate) fn append_setting(text: &mut Vec<u8>, setting: &Setting) -> Result<(), OutOfMemory>
    ensures { OnOk result (text.new.items ≡ text.old.items ++ print_setting_line setting.now) }
{
    match setting {
        Setting::Number(number) => number.append_to(text),
        Setting::Signed(number) => number.append_to(text),
        Setting::Limit(limit) => limit.append_to(text),
        Setting::Clamp(clamp) => clamp.append_to(text),
        Setting::Threaded => append_bytes(text, b"threaded"),
        Setting::Controllers(toggles) => toggles.append_to(text),
        Setting::CpuMax { quota, period } => append_with(text, quota, b" ", *period),
        Setting::Reclaim { size, swappiness } => append_with(
            text,
            size,
            b" swappiness=",
            *swappiness,
        ),
        Setting::DeviceLimits {
            device,
            rbps,
            wbps,
            riops,
            wiops,
        } => append_limits(text, *device, *rbps, *wbps, *riops, *wiops),
        Setting::DefaultWeight(weight) => append_labelled(text, b"default ", weight),
        Setting::DeviceWeight { device, weight } => append_weight(text, *device, *weight),
        Setting::DeviceTarget { device, target } => {
            device.append_to(text)?;
            append_labelled(text, b" target=", target)
        }
        Setting::Set(set) => set.append_to(text),
        Setting::Role(role) => role.append_to(text),
        Setting::Class(class) => class.append_to(text),
        Setting::Trigger {
            full,
            stall,
            window,
        } => append_trigger(text, *full, *stall, *window),
        Setting::Raw(bytes) => bytes.append_to(text),
    }
}

/// Adds a value, and a second one with a label before it, where it is given.
fn append_with<A: Canonical, B: Canonical + Copy>(
    text: &mut Vec<u8>,
    first: &A,
    label: &[u8],
    second: Option<B>,
) -> Result<(), OutOfMemory>
    ensures { OnOk result (text.new.items ≡ text.old.items
        ++ (A.printed first.now ++ print_given label.now B.printed second)) }
{
    first.append_to(text)?;
    append_given(text, label, second)
}

/// Adds a device with those of its limits that are given, as `8:16 wbps=1048576 wiops=max`.
fn append_limits(
    text: &mut Vec<u8>,
    device: Device,
    rbps: Option<Limit>,
    wbps: Option<Limit>,
    riops: Option<Limit>,
    wiops: Option<Limit>,
) -> Result<(), OutOfMemory>
    ensures { OnOk result (text.new.items ≡ text.old.items
        ++ (print_device device
        ++ print_given (codes " rbps=") print_limit rbps
        ++ print_given (codes " wbps=") print_limit wbps
        ++ print_given (codes " riops=") print_limit riops
        ++ print_given (codes " wiops=") print_limit wiops)) }
{
    device.append_to(text)?;
    append_given(text, b" rbps=", rbps)?;
    append_given(text, b" wbps=", wbps)?;
    append_given(text, b" riops=", riops)?;
    append_given(text, b" wiops=", wiops)
}

/// Adds a device with its weight, as `8:16 200`, or as `8:16 default` without one.
fn append_weight(text: &mut Vec<u8>, device: Device, weight: Option<u64>) -> Result<(), OutOfMemory>
    ensures { OnOk result (text.new.items ≡ text.old.items
        ++ (print_device device ++ print_device_weight weight)) }
{
    device.append_to(text)?;
    match weight {
        Some(weight) => append_labelled(text, b" ", &weight),
        None => append_bytes(text, b" default"),
    }
}

/// Adds a pressure trigger, as `some 150000 1000000`.
fn append_trigger(
    text: &mut Vec<u8>,
    full: bool,
    stall: u64,
    window: u64,
) -> Result<(), OutOfMemory>
    ensures { OnOk result (text.new.items ≡ text.old.items
        ++ (pressure_word full ++ 32 ∷ (decimal stall ++ 32 ∷ decimal window))) }
{
    append_bytes(text, if full { b"full" } else { b"some" })?;
    append_labelled(text, b" ", &stall)?;
    append_labelled(text, b" ", &window)
}
