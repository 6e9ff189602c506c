//! The first line of a text.
ghost use Rattle.std.specs.Prelude.{◌≡◌, ◌≤◌, length};
ghost use Rattle.std.specs.List.{position_or_len};
ghost use Rattle.gtp_check_talk.specs.Lines.{is_newline};

/// Returns how many bytes come before the first newline.
pub fn line_len(text: &[u8]) -> usize
    ensures value { result ≡ position_or_len is_newline text.now }
    ensures within { result ≤ length text.now }
{
    text.iter().take_while(|byte| **byte != b'\n').count()
}
