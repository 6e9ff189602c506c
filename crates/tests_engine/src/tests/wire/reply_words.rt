//! What the text of a reply says, word by word.
use crate::asserts::{assert_equal_for, some};
use go_base::{Choice, Point, Size, Vertex, handicap};
use gtp_wire::{names_points, read_choice};

#[test]
fn one_word_is_a_choice(rt: HostRuntime) {
    let corner = some(&rt, Point::new(9, 1));
    let choices: [(&[u8], Option<Choice>); 8] = [
        (b"J1", Some(Choice::Play(Vertex::At(corner)))),
        (b"\nj1 ", Some(Choice::Play(Vertex::At(corner)))),
        (b"Pass", Some(Choice::Play(Vertex::Pass))),
        (b"resign", Some(Choice::Resign)),
        (b"", None),
        (b"I1", None),
        (b"J1 J1", None),
        (b"resign\nnow", None),
    ];
    for (text, choice) in choices {
        assert_equal_for(&rt, text, read_choice(text), choice);
    }
}

#[test]
fn words_name_the_points_of_a_handicap_in_any_order(rt: HostRuntime) {
    let size = some(&rt, Size::new(9));
    let points = some(&rt, handicap(size, 3));
    let texts: [(&[u8], bool); 7] = [
        (b"C3 G7 C7", true),
        (b"g7\nc7  c3", true),
        (b"C3 G7", false),
        (b"C3 G7 G7", false),
        (b"C3 G7 C7 C7", false),
        (b"C3 G7 G3", false),
        (b"C3 G7 pass", false),
    ];
    for (text, named) in texts {
        assert_equal_for(&rt, text, names_points(text, &points), named);
    }
}
