//! What an engine wrote instead of a reply.
ghost use Rattle.std.specs.Prelude.{◌≡◌, ◌≤◌, length};
ghost use Rattle.gtp_check_texts.specs.Junk.{first_line};

use gtp_check_talk::line_len;
use gtp_wire::MOST_SHOWN;

/// Returns the first line of what an engine wrote, without its newline, at most 80 bytes of it.
pub fn first_line(wrote: &[u8]) -> &[u8]
    ensures line { result.now ≡ first_line wrote.entry.now }
    ensures few { length result.now ≤ 80 }
{
    &wrote[..line_len(wrote).min(MOST_SHOWN)]
}
