//! What the words of a reply's text mean: a choice, or points.
ghost use Rattle.std.specs.Prelude.{◌≡◌, length, Some};
ghost use Rattle.gtp_wire.specs.Words.{reply_words};
ghost use Rattle.gtp_wire.specs.ReplyWords.{choice_of_text, is_at, names_point, names_points};
ghost use Rattle.std.specs.List.{list_all, list_any};

use crate::words::first_word;
use go_base::{Choice, Point, Vertex};

/// Reads the choice in a reply's text, which must be one word: a vertex or `resign`, in any case.
///
/// Returns `None` if the text has no word or several, or if its word is neither.
pub fn read_choice(text: &[u8]) -> Option<Choice>
    ensures { result ≡ choice_of_text text.now }
{
    let (word, rest) = first_word(text)?;
    if first_word(rest).is_some() {
        return None;
    }
    Choice::read(word)
}

/// Whether a reply's text has as many words as there are points, and a vertex on each of the points among them.
///
/// For distinct points, such as those of a handicap, this means that each word is a vertex on one of the points and
/// each point is named once, in any order. So the answer is false if a word isn't a vertex, is a pass or another point,
/// or names a point again.
pub fn names_points(text: &[u8], points: &[Point]) -> bool
    ensures { result ≡ names_points points.now (reply_words text.now) }
{
    count_words(text) == points.len() && has_points(text, points)
}

/// Whether each point is among the words of the text.
fn has_points(text: &[u8], points: &[Point]) -> bool
    ensures { result ≡ list_all (λ p. list_any (names_point p) (reply_words text.now)) points.now }
{
    points.iter().all(|point| has_point(text, *point))
}

/// How many words the text has.
fn count_words(text: &[u8]) -> usize
    ensures { result ≡ length (reply_words text.now) }
{
    let mut count = 0;
    let mut left = text;
    while let Some((_, rest)) = first_word(left) {
        count += 1;
        left = rest;
    }
    count
}

/// Whether a word of the text names the point.
fn has_point(text: &[u8], point: Point) -> bool
    ensures { result ≡ list_any (names_point point) (reply_words text.now) }
{
    let mut left = text;
    while let Some((word, rest)) = first_word(left) {
        if is_point(word, point) {
            return true;
        }
        left = rest;
    }
    false
}

/// Whether the word names this point.
fn is_point(word: &[u8], point: Point) -> bool
    ensures { result ≡ names_point point word.now }
{
    let Some(vertex) = Vertex::read(word) else {
        return false;
    };
    is_at(vertex, point)
}

/// Whether the vertex is on this point.
fn is_at(vertex: Vertex, point: Point) -> bool
    ensures { result ≡ is_at point (Some vertex) }
{
    match vertex {
        Vertex::At(other) => other == point,
        Vertex::Pass => false,
    }
}
