//! One line.
ghost use Rattle.std.specs.Prelude.{◌≡◌};
ghost use Rattle.cg_text.specs.Token.{Spells};
ghost use Rattle.cg_text.specs.declared.token.Token.{Ghosts};
ghost use Rattle.cg_join.specs.Line.{LacksByte, IsLine};
ghost use Rattle.cg_join.specs.Spelling.{IsMappedText};

use crate::mapped::{MapValue, Mapped};
use crate::sequence::Sequence;
use cg_text::{ByteText, Token};

/// A text and a newline, with a value that is turned by `F`.
pub type Line<T, F> = Mapped<Sequence<T, ByteText>, F>;

/// A token whose type is an alias, as a `Line` is, under the name of this type: so definitions can cite what the token
/// means.
pub trait NamedToken<T: Token> {
    /// What the token means, and its laws.
    ghost token: { Ghosts T T.Out };
}

/// The token's text and a newline.
pub fn one_line<T: Token, F: MapValue<Sequence<T, ByteText>>>(token: T) -> Line<T, F>
    requires { LacksByte (T.means token) 10 }
    ensures spells { Spells ⟦<Mapped<Sequence<T, ByteText>, F> as Token>⟧.means result
        (IsMappedText (IsLine (T.means token)) F.mapped) }
    ensures size { ⟦<Mapped<Sequence<T, ByteText>, F> as Token>⟧.size result ≡ T.size token }
{
    Mapped::new(Sequence::new(token, ByteText::new(b'\n')))
}
