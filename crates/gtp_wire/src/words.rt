//! The words of a reply's text, one after the other. What they mean is in `reply_words.rt`.
ghost use Rattle.std.specs.Prelude.{◌≡◌, ◌<◌, ◌≤◌, [], ◌∷◌, length, MatchOption, IfSome};
ghost use Rattle.std.specs.List.{prefix_len};
ghost use Rattle.go_base.specs.Text.{skip_while};
ghost use Rattle.gtp_wire.specs.Bytes.{is_blank, is_inside};
ghost use Rattle.gtp_wire.specs.Words.{reply_words};

use crate::bytes::is_blank;

/// Returns the first word of a reply's text and what follows it, or `None` if the text has no word. Spaces and newlines
/// separate words.
pub fn first_word(text: &[u8]) -> Option<(&[u8], &[u8])>
    ensures words { MatchOption result
        (reply_words text.now ≡ [])
        (λ parts. reply_words text.now ≡ parts.0.now ∷ reply_words parts.1.now) }
    ensures shorter { IfSome result (λ parts. length parts.1.now < length text.now) }
{
    let text = skip_blanks(text);
    if text.is_empty() {
        return None;
    }
    Some(text.split_at(word_len(text)))
}

/// The text without the spaces and newlines in front.
#[tactic(auto, using(crate::proofs::reply_bytes::FirstWord::drop_prefix_len))]
pub(crate) fn skip_blanks(text: &[u8]) -> &[u8]
    ensures text { result.now ≡ skip_while is_blank text.now }
    ensures short { length result.now ≤ length text.now }
{
    let (_, rest) = text.split_at(blanks_len(text));
    rest
}

/// How many spaces and newlines are at the front of a text.
fn blanks_len(text: &[u8]) -> usize
    ensures value { result ≡ prefix_len is_blank text.now }
    ensures within { result ≤ length text.now }
{
    text.iter().take_while(|byte| is_blank(**byte)).count()
}

/// How many bytes come before the first space or newline.
fn word_len(text: &[u8]) -> usize
    ensures value { result ≡ prefix_len is_inside text.now }
    ensures within { result ≤ length text.now }
{
    text.iter().take_while(|byte| !is_blank(**byte)).count()
}
