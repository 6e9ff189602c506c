//! Writing texts into a buffer of the caller.
ghost use Rattle.vintsaky_calls.specs.Texts.{Writes};

/// Writes the text and a NUL, if the buffer holds both. Returns the length of the text, without the NUL.
pub fn put(text: &[u8], buffer: &mut [u8]) -> usize
    ensures { Writes text.now buffer.old buffer.new result }
{
    let count = text.len();
    if count < buffer.len() {
        buffer[..count].copy_from_slice(text);
        buffer[count] = 0;
    }
    count
}
