//! The line of a usage error or a failure.
ghost use Rattle.std.specs.Prelude.{◌≡◌, ◌+◌, ◌≤◌, length};
ghost use Rattle.cli.specs.Status.{error_line};

use arrayvec::ArrayVec;
use go_base::push;

/// The buffer of a line: a program's name of at most 20 bytes, a text of at most 100, and what is around them.
pub type Line = ArrayVec<u8, 128>;

/// Returns the line `NAME: TEXT`.
pub fn error_line(name: &[u8], text: &[u8]) -> Line
    requires name { length name.now ≤ 20 }
    requires text { length text.now ≤ 100 }
    ensures { result.items ≡ error_line name.now text.now }
{
    let mut line = Line::new();
    push(&mut line, name);
    push(&mut line, b": ");
    push(&mut line, text);
    push(&mut line, b"\n");
    line
}
