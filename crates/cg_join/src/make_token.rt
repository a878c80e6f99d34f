//! What makes the tokens of a repetition.
ghost use Rattle.std.specs.Prelude.{◌≡◌, ℕ, List};
ghost use Rattle.cg_text.specs.Token.{Spells, HasOneText, AreBytes};

use cg_text::Token;

/// What makes the tokens of a repetition.
pub trait MakeToken<T: Token>: Drop {
    /// The texts of a new token, each with its value.
    ghost texts: { Self → List ℕ → T.Out → Type 0 };

    /// A text has one value.
    ghost one_text: { (s : Self) → HasOneText (texts s) };

    /// A text holds bytes.
    ghost text_bytes: { (s : Self) (text : List ℕ) (v : T.Out) → texts s text v → AreBytes text };

    /// A new token. It takes no memory.
    fn start(&self) -> T
        ensures spells { Spells T.means result (texts self.now) }
        ensures size { T.size result ≡ 0 };

    /// There is a text.
    ghost some_text: { (s : Self) → (text : List ℕ) × (v : T.Out) × texts s text v };
}
