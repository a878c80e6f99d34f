//! A token after a fixed text.
ghost use Rattle.std.specs.Prelude.{◌≡◌, [], ◌∷◌};
ghost use Rattle.cg_text.specs.Keyword.{text_of};
ghost use Rattle.cg_text.specs.Token.{Spells};
ghost use Rattle.cg_join.specs.Spelling.{IsConcat};
ghost use Rattle.cg_join.specs.TextBytes.{IsFixed};

use crate::sequence::Sequence;
use cg_text::{ByteText, Keyword, KeywordText, Token};

/// A fixed text of the grammar, and then a token.
pub type LabelText<T> = Sequence<KeywordText, T>;

/// A byte, and then a token.
pub type Spaced<T> = Sequence<ByteText, T>;

/// The keyword's text, and then the token.
pub fn labelled<T: Token>(keyword: Keyword, token: T) -> LabelText<T>
    ensures spells { Spells ⟦<Sequence<KeywordText, T> as Token>⟧.means result
        (IsConcat (IsFixed (text_of keyword)) (T.means token)) }
    ensures size { ⟦<Sequence<KeywordText, T> as Token>⟧.size result ≡ T.size token }
{
    Sequence::new(KeywordText::new(keyword), token)
}

/// A space, and then the token.
pub fn spaced<T: Token>(token: T) -> Spaced<T>
    ensures spells { Spells ⟦<Sequence<ByteText, T> as Token>⟧.means result
        (IsConcat (IsFixed (32 ∷ [])) (T.means token)) }
    ensures size { ⟦<Sequence<ByteText, T> as Token>⟧.size result ≡ T.size token }
{
    Sequence::new(ByteText::new(b' '), token)
}
