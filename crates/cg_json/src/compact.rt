//! Compact texts, one after another.
ghost use Rattle.std.specs.Prelude.{◌≡◌, ◌++◌, ◌∷◌, [], false, IsTrue, IfOk, OnOk, OnErr, map};
ghost use Rattle.serde_json.specs.Data.{object};
ghost use Rattle.serde_json.specs.View.{view};
ghost use Rattle.serde_json.specs.Written.{compact_text, has_float};
ghost use Rattle.cg_text.specs.Distinct.{AreDistinct};
ghost use Rattle.cg_json.specs.Compact.{led, joined, member_text, listed, AreRising};
ghost use Rattle.cg_json.specs.Json.{array_of, keyed};

use crate::json::{Json, Member};
use crate::text::append_key;
use cg_text::OutOfMemory;
use serde_json::Value;
use std::alloc::Global;

/// Adds bytes.
pub(crate) fn append_bytes(out: &mut Vec<u8>, bytes: &[u8]) -> Result<(), OutOfMemory>
    ensures added { OnOk result (out.new.items ≡ out.old.items ++ bytes.now) }
    ensures kept { OnErr result (out.new.items ≡ out.old.items) }
{
    out.extend_from_slice(bytes)?;
    Ok(())
}

/// Adds a byte.
#[inline]
pub(crate) fn append_byte(out: &mut Vec<u8>, byte: u8) -> Result<(), OutOfMemory>
    ensures { OnOk result (out.new.items ≡ out.old.items ++ byte ∷ []) }
{
    out.push(byte)?;
    Ok(())
}

/// Adds the compact text of a tree without fractions.
pub(crate) fn append_tree(out: &mut Vec<u8>, tree: &Value) -> Result<(), OutOfMemory>
    requires { has_float (view tree.now) ≡ false }
    ensures { OnOk result (out.new.items ≡ out.old.items ++ compact_text (view tree.now)) }
{
    let text = tree.to_string(*out.allocator())?;
    append_bytes(out, text.as_bytes())
}

/// Adds a value with a label before it, as `,"weight":100`.
pub(crate) fn append_labelled<T: Json>(
    out: &mut Vec<u8>,
    label: &[u8],
    value: &T,
) -> Result<(), OutOfMemory>
    ensures { OnOk result (out.new.items ≡ out.old.items ++ label.now ++ compact_text (T.tree_of value.now)) }
{
    append_bytes(out, label)?;
    value.append_to(out)
}

/// Adds values, each with a comma before it.
fn append_led<T: Json>(out: &mut Vec<u8>, values: &[T]) -> Result<(), OutOfMemory>
    ensures { OnOk result (out.new.items ≡ out.old.items ++ led (λ x. compact_text (T.tree_of x)) values.now) }
{
    for value in values {
        append_byte(out, b',')?;
        value.append_to(out)?;
    }
    Ok(())
}

/// Adds values, with commas between them.
fn append_joined<T: Json>(out: &mut Vec<u8>, values: &[T]) -> Result<(), OutOfMemory>
    ensures { OnOk result (out.new.items ≡ out.old.items ++ joined (λ x. compact_text (T.tree_of x)) values.now) }
{
    match values {
        [] => Ok(()),
        [first, others @ ..] => {
            first.append_to(out)?;
            append_led(out, others)
        }
    }
}

/// Adds the array of these.
pub(crate) fn append_array<T: Json>(out: &mut Vec<u8>, items: &[T]) -> Result<(), OutOfMemory>
    ensures { OnOk result (out.new.items ≡ out.old.items ++ compact_text (array_of T.tree_of items.now)) }
{
    append_byte(out, b'[')?;
    append_joined(out, items)?;
    append_byte(out, b']')
}

/// Adds a member: its key, a colon and its value.
fn append_member<T: Member>(out: &mut Vec<u8>, member: &T) -> Result<(), OutOfMemory>
    ensures { OnOk result (out.new.items ≡ out.old.items ++ member_text T.key_of T.tree_of member.now) }
{
    append_key(out, member.key())?;
    append_byte(out, b':')?;
    member.append_to(out)
}

/// Adds members, each with a comma before it.
fn append_led_members<T: Member>(out: &mut Vec<u8>, members: &[T]) -> Result<(), OutOfMemory>
    ensures { OnOk result (out.new.items ≡ out.old.items ++ led (member_text T.key_of T.tree_of) members.now) }
{
    for member in members {
        append_byte(out, b',')?;
        append_member(out, member)?;
    }
    Ok(())
}

/// Adds members, with commas between them.
fn append_joined_members<T: Member>(out: &mut Vec<u8>, members: &[T]) -> Result<(), OutOfMemory>
    ensures { OnOk result (out.new.items ≡ out.old.items ++ joined (member_text T.key_of T.tree_of) members.now) }
{
    match members {
        [] => Ok(()),
        [first, others @ ..] => {
            append_member(out, first)?;
            append_led_members(out, others)
        }
    }
}

/// Adds the object of these members, in their order.
fn append_listed<T: Member>(out: &mut Vec<u8>, members: &[T]) -> Result<(), OutOfMemory>
    ensures { OnOk result (out.new.items ≡ out.old.items
        ++ compact_text (object (listed T.key_of T.tree_of members.now))) }
{
    append_byte(out, b'{')?;
    append_joined_members(out, members)?;
    append_byte(out, b'}')
}

/// Whether the keys are all different, and in the order of their bytes.
fn are_rising<T: Member>(members: &[T]) -> bool
    ensures { IsTrue result → AreRising T.key_of members.now }
{
    for i in 1..members.len() {
        let before = members[i - 1].key().bytes();
        let key = members[i].key().bytes();
        if !before.cmp(&key).is_lt() {
            return false;
        }
    }
    true
}

/// The members in the order of their keys.
fn sorted<T: Member>(alloc: Global, members: &[T]) -> Result<Vec<&T>, OutOfMemory>
    requires { AreDistinct (map T.key_of members.now) }
    ensures { IfOk result (λ order. keyed T.key_of T.tree_of members.now
        ≡ object (listed (λ m. T.key_of m.now) (λ m. T.tree_of m.now) order.items)) }
{
    let mut order = Vec::with_capacity(alloc, members.len())?;
    for member in members {
        order.push(member)?;
    }
    order.sort_unstable_by(|a, b| a.key().bytes().cmp(&b.key().bytes()));
    Ok(order)
}

/// Adds the object of these members, whose keys are all different.
pub(crate) fn append_object<T: Member>(out: &mut Vec<u8>, members: &[T]) -> Result<(), OutOfMemory>
    requires { AreDistinct (map T.key_of members.now) }
    ensures { OnOk result (out.new.items ≡ out.old.items
        ++ compact_text (keyed T.key_of T.tree_of members.now)) }
{
    if are_rising(members) {
        return append_listed(out, members);
    }
    let order = sorted(*out.allocator(), members)?;
    append_listed(out, order.as_slice())
}
