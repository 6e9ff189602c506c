//! Ints and colours in every spelling, and which values are equal.
use crate::asserts::{assert_equal, assert_equal_for, some};
use go_base::laws::{Values, equality_law};
use go_base::{Choice, Colour, Komi, Move, Point, Side, Size, Vertex, read_int, write_int};

/// Texts, and the int that each spells, if it spells one.
static INTS: [(&str, Option<u32>); 15] = [
    ("0", Some(0)),
    ("7", Some(7)),
    ("007", Some(7)),
    ("2147483647", Some(2_147_483_647)),
    ("00000000002147483647", Some(2_147_483_647)),
    ("", None),
    ("2147483648", None),
    ("99999999999", None),
    ("+1", None),
    ("-1", None),
    ("1 ", None),
    (" 1", None),
    ("1a", None),
    ("0x1", None),
    ("1.0", None),
];

/// Numbers, and the text of each.
static WRITTEN: [(u32, &str); 5] = [
    (0, "0"),
    (7, "7"),
    (10, "10"),
    (2_147_483_647, "2147483647"),
    (4_294_967_295, "4294967295"),
];

#[test]
fn ints_are_digits_up_to_the_greatest_and_are_written_without_leading_zeros(rt: HostRuntime) {
    for (text, number) in &INTS {
        assert_equal_for(&rt, text, read_int(text.as_bytes()), *number);
    }
    for (number, text) in &WRITTEN {
        assert_equal_for(&rt, number, write_int(*number).as_slice(), text.as_bytes());
    }
}

/// Texts, and the colour that each spells, if it spells one.
static COLOURS: [(&str, Option<Colour>); 17] = [
    ("b", Some(Colour::Black)),
    ("B", Some(Colour::Black)),
    ("black", Some(Colour::Black)),
    ("BLACK", Some(Colour::Black)),
    ("bLaCk", Some(Colour::Black)),
    ("w", Some(Colour::White)),
    ("W", Some(Colour::White)),
    ("white", Some(Colour::White)),
    ("WHITE", Some(Colour::White)),
    ("wHiTe", Some(Colour::White)),
    ("", None),
    ("green", None),
    ("bl", None),
    ("blackk", None),
    ("black ", None),
    ("whit", None),
    ("bw", None),
];

#[test]
fn colours_in_every_spelling(rt: HostRuntime) {
    for (text, colour) in &COLOURS {
        assert_equal_for(&rt, text, Colour::read(text.as_bytes()), *colour);
    }
    assert_equal(&rt, Colour::Black.write(), b'b');
    assert_equal(&rt, Colour::White.write(), b'w');
    assert_equal(&rt, Colour::Black.other(), Colour::White);
    assert_equal(&rt, Side::White.other(), Side::Black);
}

#[test]
fn values_are_equal_kind_by_kind(rt: HostRuntime) {
    let one = Values {
        size: some(&rt, Size::new(9)),
        colour: Colour::Black,
        point: Point::default(),
        vertex: Vertex::Pass,
        played: Move::default(),
        komi: some(&rt, Komi::from_half_points(13)),
        choice: Choice::Resign,
    };
    let another = Values {
        colour: Colour::White,
        komi: some(&rt, Komi::from_half_points(-13)),
        ..one
    };
    let equal = equality_law(one, another);
    assert_equal(
        &rt,
        (equal.size, equal.colour, equal.point),
        (true, false, true),
    );
    assert_equal(&rt, (equal.vertex, equal.played), (true, true));
    assert_equal(&rt, (equal.komi, equal.choice), (false, true));
}
