//! Items of a plan: a path with what is to be written to its file.
ghost use Rattle.std.specs.Prelude.{◌≡◌, IfOk, IfErr, MatchOption};
ghost use Rattle.cg_value.specs.Entry.{IsItem, IsPath, IsSomeItem};
ghost use Rattle.cg_value.specs.EntryRefusal.{IsItemFault};
ghost use Rattle.cg_value.specs.Path.{IsNameOf};

use crate::path::{is_path, name_of};
use crate::profile::Profile;
use crate::setting::Setting;
use crate::table::write_kind;
use std::marker::Model;
use thiserror::Error;

/// A path, and what is to be written to the file there: a setting that fits the kind of the path's name in the profile
/// with which it was made.
#[derive(Debug, Drop)]
pub struct PlanItem {
    path: Vec<u8>,
    setting: Setting,
    ghost fits: { IsSomeItem path.items setting },
}

impl Model for PlanItem {
    ghost use Rattle.cg_value.specs.Entry.{ItemData};

    ghost Value = { ItemData };

    ghost view = { λ i. record { path = i.path.items; setting = i.setting; fits = i.fits } };
}

/// Why a path and a setting make no item: the first that applies.
#[derive(Clone, Copy, Debug, PartialEq, Eq, Error)]
pub enum ItemFault {
    /// The path is empty, holds NUL or a newline, or ends with `/`.
    #[error("bad path")]
    BadPath,
    /// A file of the name can't be written.
    #[error("not writable")]
    NotWritable,
    /// A write of a file of the name can't hold the setting.
    #[error("wrong kind")]
    WrongKind,
}

/// A path and a setting that make no item, handed back.
#[derive(Debug, Drop, Error)]
#[error("no item: {why}")]
pub struct ItemRefused {
    pub why: ItemFault,
    pub path: Vec<u8>,
    pub setting: Setting,
}

/// Why the path and the setting make no item, if so.
fn item_fault(profile: Profile, path: &[u8], setting: &Setting) -> Option<ItemFault>
    ensures { MatchOption result (IsItem profile path.now setting.now)
        (λ why. IsItemFault profile path.now setting.now why) }
{
    if !is_path(path) {
        return Some(ItemFault::BadPath);
    }
    let kind = match write_kind(profile, name_of(path)) {
        Ok(kind) => kind,
        Err(_) => return Some(ItemFault::NotWritable),
    };
    if !setting.fits(kind) {
        return Some(ItemFault::WrongKind);
    }
    None
}

impl PlanItem {
    /// The item of the path and the setting. It takes no memory.
    pub fn new(profile: Profile, path: Vec<u8>, setting: Setting) -> Result<PlanItem, ItemRefused>
        ensures ok { IfOk result (λ i. (i.path ≡ path.items) × (i.setting ≡ setting) ×
            IsItem profile path.items setting) }
        ensures err { IfErr result (λ r. (r.path.items ≡ path.items) × (r.setting ≡ setting) ×
            IsItemFault profile path.items setting r.why) }
    {
        match item_fault(profile, path.as_slice(), &setting) {
            Some(why) => Err(ItemRefused { why, path, setting }),
            None => Ok(PlanItem { path, setting }),
        }
    }

    /// The item of a path and a setting of which it's known that they make one. It takes no memory.
    pub fn known(path: Vec<u8>, setting: Setting) -> PlanItem
        requires { IsSomeItem path.items setting }
        ensures path { result.path ≡ path.items }
        ensures setting { result.setting ≡ setting }
    {
        PlanItem { path, setting }
    }

    /// The path.
    pub fn path(&self) -> &[u8]
        ensures path { result.now ≡ self.now.path }
        ensures good { IsPath result.now }
    {
        self.path.as_slice()
    }

    /// The name of the file: what follows the last `/` of the path.
    pub fn name(&self) -> &[u8]
        ensures { IsNameOf self.now.path result.now }
    {
        name_of(self.path.as_slice())
    }

    /// What is to be written.
    pub fn setting(&self) -> &Setting
        ensures { result.now ≡ self.now.setting }
    {
        &self.setting
    }
}
