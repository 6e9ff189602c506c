//! Vertices and choices in every spelling.
use crate::asserts::{assert_equal, assert_equal_for, some};
use go_base::{Choice, Point, Vertex};

/// What a text spells.
enum Spelled {
    /// The vertex of a column and a row.
    Point(u32, u32),
    Pass,
    Resign,
    Nothing,
}

/// Texts, and what each spells.
static SPELLINGS: [(&str, Spelled); 41] = [
    ("A1", Spelled::Point(1, 1)),
    ("a1", Spelled::Point(1, 1)),
    ("H8", Spelled::Point(8, 8)),
    ("J5", Spelled::Point(9, 5)),
    ("j5", Spelled::Point(9, 5)),
    ("J9", Spelled::Point(9, 9)),
    ("j9", Spelled::Point(9, 9)),
    ("T19", Spelled::Point(19, 19)),
    ("Z25", Spelled::Point(25, 25)),
    ("z25", Spelled::Point(25, 25)),
    ("Q10", Spelled::Point(16, 10)),
    ("pass", Spelled::Pass),
    ("PASS", Spelled::Pass),
    ("pAsS", Spelled::Pass),
    ("PaSs", Spelled::Pass),
    ("resign", Spelled::Resign),
    ("RESIGN", Spelled::Resign),
    ("Resign", Spelled::Resign),
    ("rEsIgN", Spelled::Resign),
    ("", Spelled::Nothing),
    ("A", Spelled::Nothing),
    ("1", Spelled::Nothing),
    ("I5", Spelled::Nothing),
    ("i5", Spelled::Nothing),
    ("A0", Spelled::Nothing),
    ("A26", Spelled::Nothing),
    ("A01", Spelled::Nothing),
    ("B01", Spelled::Nothing),
    ("Z26", Spelled::Nothing),
    ("AA1", Spelled::Nothing),
    ("A1 ", Spelled::Nothing),
    ("A+1", Spelled::Nothing),
    ("1A", Spelled::Nothing),
    ("pas", Spelled::Nothing),
    ("passs", Spelled::Nothing),
    ("re", Spelled::Nothing),
    ("resig", Spelled::Nothing),
    ("resigns", Spelled::Nothing),
    ("resign ", Spelled::Nothing),
    (" resign", Spelled::Nothing),
    ("D4 D5", Spelled::Nothing),
];

#[test]
fn choices_are_vertices_or_resign_in_every_spelling(rt: HostRuntime) {
    for (text, spelled) in &SPELLINGS {
        let (vertex, choice) = match spelled {
            Spelled::Point(column, row) => {
                let point = some(&rt, Point::new(*column, *row));
                (
                    Some(Vertex::At(point)),
                    Some(Choice::Play(Vertex::At(point))),
                )
            }
            Spelled::Pass => (Some(Vertex::Pass), Some(Choice::Play(Vertex::Pass))),
            Spelled::Resign => (None, Some(Choice::Resign)),
            Spelled::Nothing => (None, None),
        };
        assert_equal_for(&rt, text, Vertex::read(text.as_bytes()), vertex);
        assert_equal_for(&rt, text, Choice::read(text.as_bytes()), choice);
    }
}

/// Columns, rows, and the text of the point where they cross.
static WRITTEN: [(u32, u32, &str); 11] = [
    (1, 1, "A1"),
    (8, 8, "H8"),
    (9, 9, "J9"),
    (16, 10, "Q10"),
    (25, 25, "Z25"),
    (1, 7, "A7"),
    (8, 7, "H7"),
    (9, 7, "J7"),
    (10, 7, "K7"),
    (24, 7, "Y7"),
    (25, 7, "Z7"),
];

#[test]
fn vertices_are_written_in_capitals_of_which_i_is_left_out(rt: HostRuntime) {
    for (column, row, text) in &WRITTEN {
        let point = some(&rt, Point::new(*column, *row));
        let written = Vertex::At(point).write();
        assert_equal_for(&rt, text, written.as_slice(), text.as_bytes());
        let capital = text.as_bytes().first().copied();
        assert_equal_for(&rt, text, Some(point.letter()), capital);
    }
    assert_equal(&rt, Vertex::Pass.write().as_slice(), b"pass".as_slice());
}
