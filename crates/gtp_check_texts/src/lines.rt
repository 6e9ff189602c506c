//! Lines of a text.
ghost use Rattle.std.specs.Prelude.{◌≡◌, ◌<◌, [], ◌∷◌, length, MatchOption, IfSome};
ghost use Rattle.gtp_check_texts.specs.Lines.{lines_of};

use gtp_check_talk::line_len;

/// Returns the first line of a text without its newline, and what follows it, or `None` if the text has no newline.
pub(crate) fn ended_line(text: &[u8]) -> Option<(&[u8], &[u8])>
    ensures lines { MatchOption result
        (lines_of text.now ≡ text.now ∷ [])
        (λ parts. lines_of text.now ≡ parts.0.now ∷ lines_of parts.1.now) }
    ensures shorter { IfSome result (λ parts. length parts.1.now < length text.now) }
{
    let (line, rest) = text.split_at(line_len(text));
    let (_newline, more) = rest.split_first()?;
    Some((line, more))
}
