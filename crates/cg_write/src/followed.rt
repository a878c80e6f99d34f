//! A value that another may follow.
ghost use Rattle.std.specs.Prelude.{◌≡◌};
ghost use Rattle.cg_write.specs.Mapped.{second_of};

/// The second of two values, where there are two.
pub(crate) fn second_of<T>(pair: Option<((), T)>) -> Option<T>
    ensures { result ≡ second_of pair }
{
    match pair {
        Some((_, second)) => Some(second),
        None => None,
    }
}
