//! The vectors in which repetitions keep their values.
ghost use Rattle.std.specs.Prelude.{◌≡◌, ◌+◌, ◌<◌, [], ◌++◌, ◌∷◌, vec_len, vec_capacity};
ghost use Rattle.cg_text.specs.Token.{saturated};
ghost use Rattle.cg_join.specs.Repeat.{items_size, out_size};

use cg_text::Token;

/// Adds a value where there is room.
pub(crate) fn put<X: Drop>(items: &mut Vec<X>, value: X)
    requires { vec_len items.old < vec_capacity items.old }
    ensures { items.new.items ≡ items.old.items ++ value ∷ [] }
{
    items.push_reserved(value);
}

/// The sum of the lengths of the vectors in values, and a place for each.
pub(crate) fn held_in_all<T: Token>(items: &[T::Out]) -> u64
    ensures { result ≡ saturated (items_size T.value_size items.now) }
{
    let mut total: u64 = 0;
    for item in items {
        total = total.saturating_add(1).saturating_add(T::held_in(item));
    }
    total
}

/// The same, but that the first has no place.
pub(crate) fn held_in_joined<T: Token>(items: &[T::Out]) -> u64
    ensures { result ≡ saturated (out_size T.value_size items.now) }
{
    match items.split_first() {
        Some((first, rest)) => held_in_all::<T>(rest).saturating_add(T::held_in(first)),
        None => 0,
    }
}
