//! The lines of a text.

ghost use Rattle.std.specs.Prelude.{◌≡◌, ◌<◌, ◌∷◌, [], length, IfSome, MatchOption};
ghost use Rattle.inf_script.specs.Lines.{lines_of};

use crate::bytes::{cut_at, position_of};

/// The first line of a text, and the text behind it. Where the text goes on behind these bytes, a line that they do not
/// end is none.
pub fn take_line(text: &[u8], more: bool) -> Option<(&[u8], &[u8])>
    ensures lines { MatchOption result (lines_of more text.now ≡ [])
        (λ p. lines_of more text.now ≡ p.0.now ∷ lines_of more p.1.now) }
    ensures shorter { IfSome result (λ p. length p.1.now < length text.now) }
{
    let (line, behind) = cut_at(text, position_of(text, b'\n'));
    match behind {
        Some(rest) => Some((line, rest)),
        None => {
            if more {
                return None;
            }
            if line.is_empty() {
                return None;
            }
            Some((line, &[]))
        }
    }
}
