//! Which kinds of files take a setting (cgroup-v2.rst, "Interface Files"; psi.rst, "Monitoring for pressure
//! thresholds").
ghost use Rattle.std.specs.Prelude.{◌≢◌, ◌≤ℤ◌, ◌↔◌, [], All, IsTrue};
ghost use Rattle.cg_text.specs.Numbers.{IsSet};
ghost use Rattle.cg_text.specs.Raw.{IsRawLine};
ghost use Rattle.cg_text.specs.Word.{IsControllerWord};
ghost use Rattle.cg_value.specs.Kind.{any_u64};
ghost use Rattle.cg_value.specs.Settings.{FitsWrite};
ghost use Rattle.cg_value.specs.Within.{IsWithin, IsLimitWithin, IsGivenWithin, IsClampWithin, IsDeviceWithin, IsQuotaWithin, IsGivenLimitWithin, NoneGiven, AreLimitsWithin, AreTimesWithin, AreRangesWithin, IsSwappinessWithin};

use crate::fits::is_controller;
use crate::kind::{WriteForm as Form, WriteKind};
use crate::setting::{Setting, Toggle};
use crate::spelled::is_within;
use cg_text::{Clamp, Device, Limit, LimitPairs, NumberSet};

/// Whether the signed number lies from `lo` to `hi`.
fn is_signed_within(lo: i64, hi: i64, number: i64) -> bool
    ensures { IsTrue result ↔ ((lo ≤ℤ number) × (number ≤ℤ hi)) }
{
    lo <= number && number <= hi
}

/// Whether the number isn't given, or lies from `lo` to `hi`.
fn is_given_within(lo: u64, hi: u64, number: Option<u64>) -> bool
    ensures { IsTrue result ↔ IsGivenWithin lo hi number }
{
    match number {
        Some(number) => is_within(lo, hi, number),
        None => true,
    }
}

/// Whether the limit is `max`, or lies from `lo` to `hi`.
fn limit_is_within(lo: u64, hi: u64, limit: Limit) -> bool
    ensures { IsTrue result ↔ IsLimitWithin lo hi limit }
{
    match limit {
        Limit::Max => true,
        Limit::At(number) => is_within(lo, hi, number),
    }
}

/// Whether the clamp is `max`, or at most 100.00.
fn clamp_fits(clamp: Clamp) -> bool
    ensures { IsTrue result ↔ IsClampWithin clamp }
{
    match clamp {
        Clamp::Max => true,
        Clamp::At(share) => share.count <= 10000,
    }
}

/// Whether the major number is of 12 bits, and the minor number of 20.
fn device_fits(device: Device) -> bool
    ensures { IsTrue result ↔ IsDeviceWithin device }
{
    device.major <= 4095 && device.minor <= 1048575
}

/// Whether there are toggles, all of controllers.
fn toggles_fit(toggles: &[Toggle]) -> bool
    ensures { IsTrue result ↔ ((toggles.now ≢ []) × All (λ t. IsControllerWord t.name) toggles.now) }
{
    for toggle in toggles {
        if !is_controller(&toggle.name) {
            return false;
        }
    }
    !toggles.is_empty()
}

/// Whether the quota is `max` or at least 1000 microseconds, and the period, if given, from 1000 to 1000000.
fn quota_fits(quota: Limit, period: Option<u64>) -> bool
    ensures { IsTrue result ↔ IsQuotaWithin quota period }
{
    limit_is_within(1000, u64::MAX, quota) && is_given_within(1000, 1000000, period)
}

/// Whether the swappiness isn't given, is at most 200, or, where `max`, is `max`.
fn swappiness_fits(max: bool, swappiness: Option<Limit>) -> bool
    ensures { IsTrue result ↔ IsSwappinessWithin max swappiness }
{
    match swappiness {
        None => true,
        Some(Limit::Max) => max,
        Some(Limit::At(number)) => is_within(0, 200, number),
    }
}

/// Whether the size is any of 64 bits, and the swappiness fits.
fn reclaim_fits(max: bool, size: u64, swappiness: Option<Limit>) -> bool
    ensures { IsTrue result ↔ (IsWithin 0 any_u64 size × IsSwappinessWithin max swappiness) }
{
    is_within(0, u64::MAX, size) && swappiness_fits(max, swappiness)
}

/// Whether the limit isn't given, is `max`, or at least 1.
fn given_limit_fits(limit: Option<Limit>) -> bool
    ensures { IsTrue result ↔ IsGivenLimitWithin limit }
{
    match limit {
        Some(limit) => limit_is_within(1, u64::MAX, limit),
        None => true,
    }
}

/// Whether one of the limits is given.
fn is_some_given(limits: LimitPairs) -> bool
    ensures { IsTrue result ↔ (NoneGiven limits → ⊥) }
{
    match (limits.rbps, limits.wbps, limits.riops, limits.wiops) {
        (None, None, None, None) => false,
        _ => true,
    }
}

/// Whether the device may be written with these limits.
fn limits_fit(device: Device, limits: LimitPairs) -> bool
    ensures { IsTrue result ↔ (IsDeviceWithin device × AreLimitsWithin limits) }
{
    device_fits(device)
        && is_some_given(limits)
        && given_limit_fits(limits.rbps)
        && given_limit_fits(limits.wbps)
        && given_limit_fits(limits.riops)
        && given_limit_fits(limits.wiops)
}

/// Whether the device's weight is the default one, or from 1 to `most`.
fn weight_fits(most: u64, device: Device, weight: Option<u64>) -> bool
    ensures { IsTrue result ↔ (IsDeviceWithin device × IsGivenWithin 1 most weight) }
{
    device_fits(device) && is_given_within(1, most, weight)
}

/// Whether the device may be written, with any target of 64 bits.
fn target_fits(device: Device, target: u64) -> bool
    ensures { IsTrue result ↔ (IsDeviceWithin device × IsWithin 0 any_u64 target) }
{
    device_fits(device) && is_within(0, u64::MAX, target)
}

/// Whether the numbers are at most `most`.
fn set_fits(set: &NumberSet, most: u32) -> bool
    ensures { IsTrue result ↔ (IsSet set.now × AreRangesWithin most set.now) }
{
    for range in set.ranges() {
        if range.1 > most {
            return false;
        }
    }
    true
}

/// Whether the stall is at least 1, at most the window, and that at most 10 seconds, in microseconds.
fn times_fit(stall: u64, window: u64) -> bool
    ensures { IsTrue result ↔ AreTimesWithin stall window }
{
    1 <= stall && stall <= window && window <= 10000000
}

/// Whether no byte is NUL or a newline.
fn is_raw_line(bytes: &[u8]) -> bool
    ensures { IsTrue result ↔ IsRawLine bytes.now }
{
    for byte in bytes {
        if *byte == 0 || *byte == b'\n' {
            return false;
        }
    }
    true
}

impl Setting {
    /// Whether some write of this kind spells the setting. It takes no memory.
    pub fn fits(&self, kind: WriteKind) -> bool
        ensures { IsTrue result ↔ FitsWrite kind self.now }
    {
        match (kind.form(), self) {
            (Form::Number { lo, hi }, Setting::Number(number)) => is_within(lo, hi, *number),
            (Form::Signed { lo, hi }, Setting::Signed(number)) => is_signed_within(lo, hi, *number),
            (Form::Limit { lo, hi }, Setting::Limit(limit)) => limit_is_within(lo, hi, *limit),
            (Form::SizeLimit, Setting::Limit(limit)) => limit_is_within(0, u64::MAX, *limit),
            (Form::Clamp, Setting::Clamp(clamp)) => clamp_fits(*clamp),
            (Form::Mode, Setting::Threaded) => true,
            (Form::Class, Setting::Class(_)) => true,
            (Form::Controllers, Setting::Controllers(toggles)) => toggles_fit(toggles.as_slice()),
            (Form::CpuMax, Setting::CpuMax { quota, period }) => quota_fits(*quota, *period),
            (Form::Reclaim { max }, Setting::Reclaim { size, swappiness }) => reclaim_fits(
                max,
                *size,
                *swappiness,
            ),
            (Form::DeviceLimits, _) => self.fits_device_limits(),
            (Form::DeviceWeight { most }, Setting::DefaultWeight(weight)) => is_within(
                1, most, *weight,
            ),
            (Form::DeviceWeight { most }, Setting::DeviceWeight { device, weight }) => weight_fits(
                most, *device, *weight,
            ),
            (Form::DeviceTarget, Setting::DeviceTarget { device, target }) => target_fits(
                *device, *target,
            ),
            (Form::Set { most }, Setting::Set(set)) => set_fits(set, most),
            (Form::Role, Setting::Role(_)) => true,
            (Form::Trigger, Setting::Trigger { stall, window, .. }) => times_fit(*stall, *window),
            (Form::Raw, Setting::Raw(bytes)) => is_raw_line(bytes.as_slice()),
            _ => false,
        }
    }

    /// Whether some write of a device's limits spells the setting.
    fn fits_device_limits(&self) -> bool
        ensures { IsTrue result ↔ FitsWrite Form.DeviceLimits self.now }
    {
        match self {
            Setting::DeviceLimits {
                device,
                rbps,
                wbps,
                riops,
                wiops,
            } => {
                let limits = LimitPairs {
                    rbps: *rbps,
                    wbps: *wbps,
                    riops: *riops,
                    wiops: *wiops,
                };
                limits_fit(*device, limits)
            }
            _ => false,
        }
    }
}
