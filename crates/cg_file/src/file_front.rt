//! A file of one line that stands whole in front of some bytes.
ghost use Rattle.std.specs.Prelude.{◌≡◌, ◌<◌, [], ◌∷◌, IfSome, IsTrue, length, take};
ghost use Rattle.cg_file.specs.Front.{IsFileFront};
ghost use Rattle.cg_value.specs.Kind.{IsReadForm};

use crate::any_file::AnyFile;
use crate::clamp::clamp_file;
use crate::class::class_file;
use crate::cpu_max::CpuMaxFile;
use crate::limit::limit_file;
use crate::mode::mode_file;
use crate::number::number_file;
use cg_index::KeyedItems;
use cg_text::{NumberSet, Token};
use cg_value::{ReadForm, ReadKind, Value};
use std::alloc::Global;

/// Whether the bytes begin with an empty line.
fn begins_empty(bytes: &[u8]) -> bool
    ensures { IsTrue result → (0 < length bytes.now) × (take 1 bytes.now ≡ 10 ∷ []) }
{
    match bytes.split_first() {
        Some((first, _)) => *first == b'\n',
        None => false,
    }
}

/// What `AnyFile::read_front` finds of a kind of this form.
fn value_in_front(alloc: Global, form: ReadForm, bytes: &[u8]) -> Option<(Value, usize)>
    requires { IsReadForm form }
    ensures { IfSome result (λ r. IsFileFront form bytes.now r.0 r.1) }
{
    match form {
        ReadForm::Number { lo, hi } => number_file(lo, hi).whole(bytes),
        ReadForm::Limit => limit_file().whole(bytes),
        ReadForm::Mode => mode_file().whole(bytes),
        ReadForm::Class => class_file().whole(bytes),
        ReadForm::CpuMax => CpuMaxFile::new().whole(bytes),
        ReadForm::Clamp => clamp_file().whole(bytes),
        ReadForm::Words if begins_empty(bytes) => Some((Value::Words(KeyedItems::new(alloc)), 1)),
        ReadForm::Set { .. } if begins_empty(bytes) => {
            Some((Value::Set(NumberSet::new(alloc)), 1))
        }
        _ => None,
    }
}

impl AnyFile {
    /// The value of a file of this kind with which the bytes begin, and its length, where it is one line with which no
    /// longer file of the kind begins, and its value holds nothing. It may find none where there is one. It takes no
    /// memory.
    pub fn read_front(alloc: Global, kind: ReadKind, bytes: &[u8]) -> Option<(Value, usize)>
        ensures { IfSome result (λ r. IsFileFront kind bytes.now r.0 r.1) }
    {
        value_in_front(alloc, kind.form(), bytes)
    }
}
