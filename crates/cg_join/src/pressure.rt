//! Averages of pressure.
ghost use Rattle.std.specs.Prelude.{◌≡◌};
ghost use Rattle.cg_text.specs.Token.{Spells};
ghost use Rattle.cg_join.specs.Composites.{AreAverages};

use crate::bounded::decimal_in;
use crate::label::{LabelText, labelled};
use crate::sequence::Sequence;
use cg_text::{DecimalText, HundredthsText, Keyword, Spelling, Token};

/// The share of time that tasks stalled over ten seconds, a minute and five minutes, and the total in microseconds.
pub type Averages = Sequence<
    LabelText<HundredthsText>,
    Sequence<
        LabelText<HundredthsText>,
        Sequence<LabelText<HundredthsText>, LabelText<DecimalText>>,
    >,
>;

/// ` avg10=`, ` avg60=`, ` avg300=`, each before a percentage of at most 999.99, and ` total=` before a number
/// (psi.rst).
pub fn averages() -> Averages
    ensures spells { Spells ⟦<Averages as Token>⟧.means result AreAverages }
    ensures size { ⟦<Averages as Token>⟧.size result ≡ 0 }
{
    let avg10 = labelled(Keyword::Avg10, HundredthsText::new(Spelling::Read, 99999));
    let avg60 = labelled(Keyword::Avg60, HundredthsText::new(Spelling::Read, 99999));
    let avg300 = labelled(Keyword::Avg300, HundredthsText::new(Spelling::Read, 99999));
    let total = labelled(Keyword::Total, decimal_in(0, u64::MAX));
    Sequence::new(avg10, Sequence::new(avg60, Sequence::new(avg300, total)))
}
