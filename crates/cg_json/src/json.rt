//! JSON trees of values, one inside another.
ghost use Rattle.std.specs.Prelude.{◌≡◌, ◌++◌, ℕ, List, IfOk, OnOk, map};
ghost use Rattle.serde_json.specs.Data.{Data};
ghost use Rattle.serde_json.specs.View.{view};
ghost use Rattle.serde_json.specs.Written.{compact_text};
ghost use Rattle.cg_json.specs.Json.{array_of, keyed};

use crate::text::key_text;
use cg_index::{Cell, HasKey};
use cg_text::{Key, OutOfMemory};
use serde_json::{Map, Value};
use std::alloc::Global;

/// What has a JSON tree.
pub(crate) trait Json {
    // The tree.
    ghost tree_of: { Self → Data };

    /// Makes the tree.
    fn json(&self, alloc: Global) -> Result<Value, OutOfMemory>
        ensures { IfOk result (λ tree. view tree ≡ tree_of self.now) };

    /// Adds the compact text of the tree, without making it.
    fn append_to(&self, out: &mut Vec<u8>) -> Result<(), OutOfMemory>
        ensures { OnOk result (out.new.items ≡ out.old.items ++ compact_text (tree_of self.now)) };
}

/// What is a member of an object: a key, and a JSON tree.
pub(crate) trait Member: Json {
    // The key.
    ghost key_of: { Self → List ℕ };

    /// The key.
    fn key(&self) -> &Key
        ensures { result.now ≡ key_of self.now };
}

/// The tree of what is referred to.
impl<T: Json> Json for &T {
    ghost tree_of = { λ value. T.tree_of value.now };

    fn json(&self, alloc: Global) -> Result<Value, OutOfMemory> {
        T::json(*self, alloc)
    }

    fn append_to(&self, out: &mut Vec<u8>) -> Result<(), OutOfMemory> {
        T::append_to(*self, out)
    }
}

impl<T: Member> Member for &T {
    ghost key_of = { λ member. T.key_of member.now };

    fn key(&self) -> &Key {
        T::key(*self)
    }
}

/// The tree of the item.
impl<T: Json> Json for Cell<T> {
    ghost tree_of = { λ cell. T.tree_of cell.item };

    fn json(&self, alloc: Global) -> Result<Value, OutOfMemory> {
        self.item.json(alloc)
    }

    fn append_to(&self, out: &mut Vec<u8>) -> Result<(), OutOfMemory> {
        self.item.append_to(out)
    }
}

/// The item, by its key.
impl<T: Json + HasKey> Member for Cell<T> {
    ghost key_of = { λ cell. T.HasKey.key_of cell.item };

    fn key(&self) -> &Key {
        self.item.key()
    }
}

/// The array of the trees of these.
pub(crate) fn array<T: Json>(alloc: Global, items: &[T]) -> Result<Value, OutOfMemory>
    ensures { IfOk result (λ tree. view tree ≡ array_of T.tree_of items.now) }
{
    let mut list = Vec::new(alloc);
    for item in items {
        list.push(item.json(alloc)?)?;
    }
    Ok(Value::Array(list))
}

/// The object of these members.
pub(crate) fn object<T: Member>(alloc: Global, members: &[T]) -> Result<Value, OutOfMemory>
    ensures { IfOk result (λ tree. view tree ≡ keyed T.key_of T.tree_of members.now) }
{
    let mut map = Map::new(alloc);
    for member in members {
        let key = key_text(member.key());
        serde_json::put(&mut map, alloc, key, member.json(alloc)?)?;
    }
    Ok(Value::Object(map))
}
