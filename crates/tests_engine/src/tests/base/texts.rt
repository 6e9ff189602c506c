//! Texts that are written word by word, and the digits in front of a text.
use crate::asserts::{assert_equal, assert_equal_for, some};
use arrayvec::ArrayVec;
use go_base::{Point, Vertex, push, push_vertex, push_word, split_digits};

#[test]
fn separators_are_between_words_and_spaces_between_vertices(rt: HostRuntime) {
    let mut words: ArrayVec<u8, 16> = ArrayVec::new();
    push_word(&mut words, b'-', b"one");
    push_word(&mut words, b'-', b"two");
    push(&mut words, b"!");
    assert_equal(&rt, words.as_slice(), b"one-two!".as_slice());
    let mut vertices: ArrayVec<u8, 16> = ArrayVec::new();
    push_vertex(&mut vertices, Vertex::Pass);
    push_vertex(&mut vertices, Vertex::At(some(&rt, Point::new(4, 16))));
    assert_equal(&rt, vertices.as_slice(), b"pass D16".as_slice());
}

/// Texts, the digits in front of each, and what follows them.
static FRONTS: [(&str, &str, &str); 5] = [
    ("", "", ""),
    ("D4", "", "D4"),
    ("007", "007", ""),
    ("12 D4", "12", " D4"),
    ("1.5", "1", ".5"),
];

#[test]
fn digits_in_front_are_split_off(rt: HostRuntime) {
    for (text, digits, rest) in &FRONTS {
        let parts = split_digits(text.as_bytes());
        assert_equal_for(&rt, text, parts.0, digits.as_bytes());
        assert_equal_for(&rt, text, parts.1, rest.as_bytes());
    }
}
