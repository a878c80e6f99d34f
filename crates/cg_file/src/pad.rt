//! What may follow the device of a line of `io.stat` (cgroup-v2.rst, io.stat).
ghost use Rattle.std.specs.Prelude.{◌≡◌, IsFalse, IfSome};
ghost use Rattle.cg_text.specs.Token.{Spells};
ghost use Rattle.cg_file.specs.Pad.{IsPadFront, IsPadded, IsUnspaced, PadRest, is_known, pad_ends};

use cg_text::{OutOfMemory, Pushed, Steps, Token, push_bytes, push_count};

/// What is known of the pad.
#[derive(Clone, Copy)]
pub enum Padding {
    /// Nothing is taken.
    Before,
    /// One space is taken: the pad, or what leads the token's text.
    Perhaps,
    /// Whether there is a pad; all else that was taken is the token's.
    Known(bool),
}

/// A space of its own, or none, which is the pad; and then a space and a text of the token, or nothing. The value is
/// whether there is a pad, and the token's value, or one that is ready where there is no text of the token. No text of
/// the token is empty or begins with a space.
#[derive(Drop)]
pub struct PadText<T: Token> {
    token: T,
    ready: T::Out,
    padding: Padding,
    ghost bare: { T.value_size ready ≡ 0 },
    ghost unspaced: { IsFalse (is_known padding) → IsUnspaced (T.means token) },
}

impl<T: Token> PadText<T> {
    /// The pad, and then a space and the token's text, or nothing, with this value.
    pub fn new(token: T, ready: T::Out) -> PadText<T>
        requires unspaced { IsUnspaced (T.means token) }
        requires bare { T.value_size ready ≡ 0 }
        ensures spells { Spells ⟦<PadText<T> as Token>⟧.means result (IsPadded (T.means token) ready) }
        ensures size { ⟦<PadText<T> as Token>⟧.size result ≡ T.size token }
    {
        PadText {
            token,
            ready,
            padding: Padding::Before,
        }
    }
}

/// Whether the bytes begin with the pad before the space that leads a text, and how many bytes the two have.
fn pad_in_front(bytes: &[u8]) -> Option<(bool, usize)>
    ensures { IfSome result (IsPadFront bytes.now) }
{
    if bytes.is_empty() || bytes[0] != b' ' {
        return None;
    }
    if bytes.len() > 1 && bytes[1] == b' ' {
        Some((true, 2))
    } else {
        Some((false, 1))
    }
}

impl<T: Token> Token for PadText<T> {
    type Out = (bool, T::Out);

    ghost use Rattle.cg_file.specs.PadLaws.{pad_completes, pad_ends_is, pad_one, pad_bytes};

    ghost means = { λ s. PadRest s.padding (T.means s.token) s.ready };

    ghost size = { λ s. T.size s.token };

    ghost value_size = { λ v. T.value_size v.1 };

    ghost ends = { λ s. pad_ends s.padding (T.ends s.token) };

    ghost grows = { T.grows };

    fn push(&mut self, bytes: &[u8]) -> Pushed {
        push_bytes(self, bytes)
    }

    fn whole(&self, bytes: &[u8]) -> Option<((bool, T::Out), usize)> {
        match self.padding {
            Padding::Before => {}
            Padding::Perhaps => return None,
            Padding::Known(_) => return None,
        }
        let (pad, count) = match pad_in_front(bytes) {
            Some(found) => found,
            None => return None,
        };
        let (_, rest) = bytes.split_at(count);
        match self.token.whole(rest) {
            Some((value, more)) => Some(((pad, value), count + more)),
            None => None,
        }
    }

    fn allows(&self, byte: u8) -> bool {
        match self.padding {
            Padding::Before => byte == b' ',
            Padding::Perhaps => byte == b' ' || self.token.allows(byte),
            Padding::Known(_) => self.token.allows(byte),
        }
    }

    fn can_end(&self) -> bool {
        match self.padding {
            Padding::Before => true,
            Padding::Perhaps => true,
            Padding::Known(_) => self.token.can_end(),
        }
    }

    fn held(&self) -> u64 {
        self.token.held()
    }

    fn take(self) -> (bool, T::Out) {
        match self.padding {
            Padding::Before => (false, self.ready),
            Padding::Perhaps => (true, self.ready),
            Padding::Known(pad) => (pad, self.token.take()),
        }
    }

    fn held_in(value: &(bool, T::Out)) -> u64 {
        T::held_in(&value.1)
    }

    ghost completes = { λ s. pad_completes (T.means s.token) s.ready s.padding (T.completes s.token) };

    ghost no_size = { λ e s. T.no_size e s.token };

    ghost ends_is = { λ s. pad_ends_is (T.means s.token) s.ready s.padding (T.ends s.token) (T.ends_is s.token) };

    ghost one_value = { λ s. pad_one (T.means s.token) s.ready s.padding s.unspaced (T.one_value s.token) };

    ghost holds_bytes = { λ s. pad_bytes (T.means s.token) s.ready s.padding (T.holds_bytes s.token) };
}

impl<T: Token> Steps for PadText<T> {
    type Value = (bool, T::Out);

    ghost rests = { ⟦<PadText<T> as Token>⟧.means };

    ghost room = { ⟦<PadText<T> as Token>⟧.size };

    ghost grows = { ⟦<PadText<T> as Token>⟧.grows };

    fn take_byte(&mut self, byte: u8) -> Result<bool, OutOfMemory> {
        match self.padding {
            Padding::Before => {
                if byte != b' ' {
                    return Ok(false);
                }
                self.padding = Padding::Perhaps;
                Ok(true)
            }
            Padding::Perhaps => {
                if byte == b' ' {
                    self.padding = Padding::Known(true);
                    return Ok(true);
                }
                match self.token.step(byte) {
                    Ok(true) => {
                        self.padding = Padding::Known(false);
                        Ok(true)
                    }
                    Ok(false) => Ok(false),
                    Err(e) => Err(e),
                }
            }
            Padding::Known(_) => self.token.step(byte),
        }
    }

    fn take_run(&mut self, bytes: &[u8]) -> usize {
        match self.padding {
            Padding::Before => 0,
            Padding::Perhaps => 0,
            Padding::Known(_) => push_count(&mut self.token, bytes),
        }
    }
}
