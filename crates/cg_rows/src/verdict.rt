//! Rows of all forms.
use crate::row::{RowFault, fields_of, row_of};
use crate::script::script_of;
use crate::sweep::{Counts, sweep};
use crate::trial::{Way, difference_of};
use crate::{call, pull, token};
use cg_value::Profile;
use std::alloc::Global;

/// The first run of a row's sweeps that differs.
fn difference_of_sweep(
    alloc: Global,
    fields: &[&str],
    counts: &mut Counts,
) -> Result<Option<Way>, RowFault> {
    let script = script_of(alloc, fields)?;
    let mut own = Counts::NONE;
    sweep(alloc, &script, &mut own)?;
    counts.merge(own);
    Ok(own.first)
}

/// Whether a row of calls, of a token or of values agrees, none of another row.
fn agrees(alloc: Global, form: &str, fields: &[&str]) -> Result<Option<bool>, RowFault> {
    Ok(Some(match form {
        "pull" => pull::agrees(alloc, fields)?,
        "token" => token::agrees(alloc, fields)?,
        "upgrade" => call::upgrades(alloc, Profile::Two, fields)?,
        "upgrade_kernel" => call::upgrades(alloc, Profile::Kernel, fields)?,
        "encode" => call::encodes(alloc, fields)?,
        "amount" => call::has_amount(alloc, fields)?,
        "fault" => call::is_told(alloc, fields)?,
        _ => return Ok(None),
    }))
}

/// The first way in which a row isn't met. Its first word may tell its form.
fn difference_in(alloc: Global, line: &str, counts: &mut Counts) -> Result<Option<Way>, RowFault> {
    let (form, rest) = line.split_once(' ').unwrap_or((line, ""));
    let fields = fields_of(alloc, rest)?;
    if form == "sweep" {
        return difference_of_sweep(alloc, fields.as_slice(), counts);
    }
    if let Some(agrees) = agrees(alloc, form, fields.as_slice())? {
        return Ok((!agrees).then_some(Way::Answer));
    }
    let fields = fields_of(alloc, line)?;
    let row = row_of(alloc, fields.as_slice())?;
    difference_of(alloc, &row)
}

/// The way in which a line isn't met: a row that isn't, or behind `not` one that is.
pub(crate) fn verdict_of(
    alloc: Global,
    line: &str,
    counts: &mut Counts,
) -> Result<Option<Way>, RowFault> {
    let Some(row) = line.strip_prefix("not ") else {
        return difference_in(alloc, line, counts);
    };
    let mut apart = Counts::NONE;
    match difference_in(alloc, row, &mut apart)? {
        Some(_) => Ok(None),
        None => Ok(Some(Way::Same)),
    }
}
