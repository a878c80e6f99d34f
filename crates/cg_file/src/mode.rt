//! A file of one mode (cgroup-v2.rst, cgroup.type).
ghost use Rattle.std.specs.Prelude.{◌≡◌};
ghost use Rattle.cg_text.specs.Token.{Spells};
ghost use Rattle.cg_value.specs.Files.{KindText};
ghost use Rattle.cg_value.specs.declared.kind.ReadForm.TheVariants.{Mode as ModeForm};
ghost use Rattle.cg_file.specs.OneLineMapped.{IsModeWord};

use cg_join::{Choice, Either, Line, MapValue, NamedToken, Sequence, one_line};
use cg_text::{ByteText, Keyword, KeywordText, Token};
use cg_value::{GroupMode, Value};

/// One of two fixed texts.
type TwoWords = Choice<KeywordText, KeywordText>;

/// The words of modes: `domain` or `domain threaded`, or else `domain invalid` or `threaded`.
pub type ModeText = Choice<TwoWords, TwoWords>;

/// The words of modes.
fn mode_text() -> ModeText
    ensures spells { Spells ⟦<ModeText as Token>⟧.means result IsModeWord }
    ensures size { ⟦<ModeText as Token>⟧.size result ≡ 0 }
{
    let domain = KeywordText::new(Keyword::Domain);
    let domain_threaded = KeywordText::new(Keyword::DomainThreaded);
    let domain_invalid = KeywordText::new(Keyword::DomainInvalid);
    let threaded = KeywordText::new(Keyword::Threaded);
    let sound = Choice::new(domain, domain_threaded);
    let other = Choice::new(domain_invalid, threaded);
    Choice::new(sound, other)
}

/// A line, turned into the file's value.
#[derive(Clone, Copy)]
pub struct ToMode;

impl MapValue<Sequence<ModeText, ByteText>> for ToMode {
    type To = Value;

    ghost use Rattle.cg_join.specs.SettledLaws.{zero_least};
    ghost use Rattle.cg_file.specs.OneLineMapped.{mode_value};

    ghost mapped = { mode_value };

    ghost value_size = { λ _. 0 };

    fn map_value(value: (Either<Either<(), ()>, Either<(), ()>>, ())) -> Value {
        Value::Mode(match value.0 {
            Either::Left(Either::Left(_)) => GroupMode::Domain,
            Either::Left(Either::Right(_)) => GroupMode::DomainThreaded,
            Either::Right(Either::Left(_)) => GroupMode::DomainInvalid,
            Either::Right(Either::Right(_)) => GroupMode::Threaded,
        })
    }

    fn held_in(_value: &Value) -> u64 {
        0
    }

    ghost adds_no_memory = { λ v. zero_least _ };
}

/// The text of a file of one mode.
pub type ModeFile = Line<ModeText, ToMode>;

impl NamedToken<ModeFile> for ToMode {
    ghost token = { ⟦<ModeFile as Token>⟧ };
}

/// A token of such files.
pub fn mode_file() -> ModeFile
    ensures spells { Spells ⟦<ModeFile as Token>⟧.means result (λ text v. KindText ModeForm v text) }
    ensures size { ⟦<ModeFile as Token>⟧.size result ≡ 0 }
{
    one_line(mode_text())
}
