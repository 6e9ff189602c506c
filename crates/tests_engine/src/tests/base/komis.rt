//! Komi in every spelling, and scores.
use crate::asserts::{assert_equal, assert_equal_for, some};
use go_base::{Komi, write_half_points, write_score};

/// Texts, and the half points of the komi that each spells, if it spells one.
static SPELLINGS: [(&str, Option<i32>); 30] = [
    ("6.5", Some(13)),
    ("-0.50", Some(-1)),
    ("-0", Some(0)),
    ("7.", Some(14)),
    ("+.5", Some(1)),
    ("999999999.5", Some(1_999_999_999)),
    ("-999999999.5", Some(-1_999_999_999)),
    ("0006.500000000", Some(13)),
    ("0", Some(0)),
    (".0", Some(0)),
    ("+7.", Some(14)),
    ("-3.50", Some(-7)),
    (".", None),
    ("-", None),
    ("", None),
    ("6.05", None),
    ("6.55", None),
    ("1e1", None),
    ("1000000000", None),
    ("+", None),
    ("-.", None),
    ("6.7", None),
    ("0000000006.5", None),
    ("6.5000000000", None),
    ("6..5", None),
    ("6,5", None),
    (" 6", None),
    ("--6", None),
    ("+-6", None),
    ("5.05", None),
];

/// Komi in half points, and the text of each.
static WRITTEN: [(i32, &str); 7] = [
    (13, "6.5"),
    (-1, "-0.5"),
    (0, "0"),
    (14, "7"),
    (1, "0.5"),
    (1_999_999_999, "999999999.5"),
    (-1_999_999_999, "-999999999.5"),
];

#[test]
fn komi_is_read_in_half_points_and_written_in_points(rt: HostRuntime) {
    for (text, wanted) in &SPELLINGS {
        let half_points = Komi::read(text.as_bytes()).map(|komi| komi.half_points());
        assert_equal_for(&rt, text, half_points, *wanted);
    }
    for (half_points, wanted) in &WRITTEN {
        let komi = some(&rt, Komi::from_half_points(*half_points));
        assert_equal_for(&rt, wanted, komi.half_points(), *half_points);
        assert_equal_for(&rt, wanted, komi.write().as_slice(), wanted.as_bytes());
    }
    for half_points in [2_000_000_000, -2_000_000_000, 2_147_483_647, -2_147_483_648] {
        assert_equal_for(&rt, half_points, Komi::from_half_points(half_points), None);
    }
}

/// Scores in half points, and the text of each.
static SCORES: [(i32, &str); 10] = [
    (17, "B+8.5"),
    (-1, "W+0.5"),
    (0, "0"),
    (1, "B+0.5"),
    (2, "B+1"),
    (-14, "W+7"),
    (2_000_001_249, "B+1000000624.5"),
    (-2_000_001_249, "W+1000000624.5"),
    (2_147_483_647, "B+1073741823.5"),
    (-2_147_483_648, "W+1073741824"),
];

#[test]
fn a_score_names_the_colour_that_leads(rt: HostRuntime) {
    for (half_points, text) in &SCORES {
        let written = write_score(*half_points);
        assert_equal_for(&rt, half_points, written.as_slice(), text.as_bytes());
    }
    let greatest = write_half_points(4_294_967_295);
    assert_equal(&rt, greatest.as_slice(), b"2147483647.5".as_slice());
}
