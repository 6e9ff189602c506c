//! How single bytes of replies are preprocessed, as the standard says. For command lines see `kind_of` in `lines.rt`.
ghost use Rattle.std.specs.Prelude.{◌≡◌, not};
ghost use Rattle.gtp_wire.specs.Bytes.{is_kept, space_for_tab, is_blank};

/// Whether the byte is a space or a newline. These may come before a reply, and they separate the words of its text.
pub(crate) fn is_blank(byte: u8) -> bool
    ensures { result ≡ is_blank byte }
{
    byte == b' ' || byte == b'\n'
}

/// Whether a byte is removed before parsing: a control character that is neither HT nor LF.
pub(crate) fn is_removed(byte: u8) -> bool
    ensures { is_kept byte ≡ not result }
{
    byte.is_ascii_control() && byte != b'\t' && byte != b'\n'
}

/// The byte as it is parsed: HT becomes a space.
pub(crate) fn prepared_byte(byte: u8) -> u8
    ensures { result ≡ space_for_tab byte }
{
    if byte == b'\t' { b' ' } else { byte }
}
