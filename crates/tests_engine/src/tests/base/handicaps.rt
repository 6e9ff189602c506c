//! Sizes, and the handicap points of each, as in the table of docs/protocol.md.
use crate::asserts::{assert_equal_for, some};
use arrayvec::ArrayVec;
use go_base::{Size, Vertex, handicap};

/// Sizes, numbers of stones, and the points of each. Of a number that isn't allowed there are none.
static POINTS: [(u32, u32, &str); 36] = [
    (19, 2, "D4 Q16"),
    (19, 3, "D4 Q16 D16"),
    (19, 4, "D4 Q16 D16 Q4"),
    (19, 5, "D4 Q16 D16 Q4 K10"),
    (19, 6, "D4 Q16 D16 Q4 D10 Q10"),
    (19, 7, "D4 Q16 D16 Q4 D10 Q10 K10"),
    (19, 8, "D4 Q16 D16 Q4 D10 Q10 K4 K16"),
    (19, 9, "D4 Q16 D16 Q4 D10 Q10 K4 K16 K10"),
    (13, 2, "D4 K10"),
    (7, 4, "C3 E5 C5 E3"),
    (25, 5, "D4 W22 D22 W4 N13"),
    (9, 9, "C3 G7 C7 G3 C5 G5 E3 E7 E5"),
    (8, 4, "C3 F6 C6 F3"),
    (8, 5, ""),
    (6, 2, ""),
    (19, 1, ""),
    (9, 4_294_967_295, ""),
    // The first two are in corners: on the third line from the edges below size 13, on the fourth from 13 up.
    (7, 2, "C3 E5"),
    (8, 2, "C3 F6"),
    (9, 2, "C3 G7"),
    (10, 2, "C3 H8"),
    (11, 2, "C3 J9"),
    (12, 2, "C3 K10"),
    (13, 2, "D4 K10"),
    (14, 2, "D4 L11"),
    (15, 2, "D4 M12"),
    (16, 2, "D4 N13"),
    (17, 2, "D4 O14"),
    (18, 2, "D4 P15"),
    (19, 2, "D4 Q16"),
    (20, 2, "D4 R17"),
    (21, 2, "D4 S18"),
    (22, 2, "D4 T19"),
    (23, 2, "D4 U20"),
    (24, 2, "D4 V21"),
    (25, 2, "D4 W22"),
];

#[test]
fn handicap_points_are_those_of_each_size(rt: HostRuntime) {
    for (size, stones, wanted) in &POINTS {
        let mut text: ArrayVec<u8, 40> = ArrayVec::new();
        if let Some(points) = handicap(some(&rt, Size::new(*size)), *stones) {
            for point in &points {
                if !text.is_empty() {
                    let _ = text.try_push(b' ');
                }
                let _ = text.try_extend_from_slice(&Vertex::At(*point).write());
            }
        }
        assert_equal_for(&rt, (size, stones), text.as_slice(), wanted.as_bytes());
    }
}

/// Sizes, and the most stones of each: none below 7, nine on odd sizes from 9 up, else four.
static MOST_STONES: [(u32, u32); 25] = [
    (1, 0),
    (2, 0),
    (3, 0),
    (4, 0),
    (5, 0),
    (6, 0),
    (7, 4),
    (8, 4),
    (9, 9),
    (10, 4),
    (11, 9),
    (12, 4),
    (13, 9),
    (14, 4),
    (15, 9),
    (16, 4),
    (17, 9),
    (18, 4),
    (19, 9),
    (20, 4),
    (21, 9),
    (22, 4),
    (23, 9),
    (24, 4),
    (25, 9),
];

#[test]
fn sizes_are_1_to_25_and_each_allows_the_handicaps_of_the_table(rt: HostRuntime) {
    for (size, most) in &MOST_STONES {
        let lines = some(&rt, Size::new(*size));
        for stones in 0..12 {
            let is_allowed = stones >= 2 && stones <= *most;
            let is_some = handicap(lines, stones).is_some();
            assert_equal_for(&rt, (size, stones), is_some, is_allowed);
        }
    }
    for number in [0, 26, 27, 4_294_967_295] {
        assert_equal_for(&rt, number, Size::new(number), None);
    }
}
