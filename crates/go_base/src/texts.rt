//! Texts in lists of a fixed capacity, written part by part.
ghost use Rattle.std.specs.Prelude.{◌≡◌, ◌+◌, ◌≤◌, ◌++◌, length};
ghost use Rattle.arrayvec.specs.ArrayVec.{array_vec_len};
ghost use Rattle.go_base.specs.Bytes.{space};
ghost use Rattle.go_base.specs.Text.{joined};
ghost use Rattle.go_base.specs.Vertex.{written_vertex, written_vertices};

use crate::points::Point;
use crate::vertices::Vertex;
use arrayvec::ArrayVec;

/// Appends bytes. The list must have the capacity for them.
pub fn push<const ROOM: usize>(text: &mut ArrayVec<u8, ROOM>, bytes: &[u8])
    requires { array_vec_len text.old + length bytes.now ≤ ROOM }
    ensures bytes { text.new.items ≡ text.old.items ++ bytes.now }
    ensures len { array_vec_len text.new ≡ array_vec_len text.old + length bytes.now }
{
    // There is room, so all is taken.
    let _ = text.try_extend_from_slice(bytes);
}

/// Appends a word, after the separator if the text isn't empty. The list must have the capacity for both.
pub fn push_word<const ROOM: usize>(text: &mut ArrayVec<u8, ROOM>, separator: u8, word: &[u8])
    requires { array_vec_len text.old + 1 + length word.now ≤ ROOM }
    ensures bytes { text.new.items ≡ joined separator text.old.items word.now }
    ensures len { array_vec_len text.new ≤ array_vec_len text.old + 1 + length word.now }
{
    if !text.is_empty() {
        text.push(separator);
    }
    push(text, word);
}

/// Appends a vertex, after a space if the text isn't empty. The list must have the capacity for five more bytes.
pub fn push_vertex<const ROOM: usize>(text: &mut ArrayVec<u8, ROOM>, vertex: Vertex)
    requires { array_vec_len text.old + 5 ≤ ROOM }
    ensures bytes { text.new.items ≡ joined space text.old.items (written_vertex vertex) }
    ensures len { array_vec_len text.new ≤ array_vec_len text.old + 5 }
{
    push_word(text, b' ', &vertex.write());
}

/// The capacity for the vertices of nine points: five bytes for each, a space and a vertex.
pub const VERTICES_ROOM: usize = 45;

/// Writes the vertices of points, separated by single spaces.
pub fn write_vertices(points: &ArrayVec<Point, 9>) -> ArrayVec<u8, VERTICES_ROOM>
    ensures { result.items ≡ written_vertices points.now.items }
{
    let mut text = ArrayVec::new();
    for point in points.as_slice() {
        push_vertex(&mut text, Vertex::At(*point));
    }
    text
}
