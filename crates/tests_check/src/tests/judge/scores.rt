//! Scores of empty boards, and komi.
use super::{ask, begun, hear, may_ask};
use crate::asserts::{assert_equal, assert_equal_for, assert_true};
use gtp_check_judge::{Kind, Opinion};

/// Lines that are asked one after the other, each with the reply to it, and what is found at the last.
type Row = (&'static [(&'static str, &'static str)], Option<Kind>);

static SCORES: [Row; 30] = [
    // The first score is compared with nothing, whatever it is; nor is one that differs from the one before.
    (
        &[
            ("6 komi 6.5\n", "=6\n\n"),
            ("7 final_score\n", "=7 B+30.25\n\n"),
            ("8 final_score\n", "=8 W+3\n\n"),
            ("9 komi 0\n", "=9\n\n"),
            ("10 final_score\n", "=10 B+7.5\n\n"),
        ],
        None,
    ),
    // A score that was given twice is compared with nothing; nor is one after which another came.
    (
        &[
            ("6 komi 0.5\n", "=6\n\n"),
            ("7 final_score\n", "=7 B+3.5\n\n"),
            ("8 final_score\n", "=8 B+3.5\n\n"),
            ("9 komi 7.5\n", "=9\n\n"),
            ("10 final_score\n", "=10 B+3.5\n\n"),
            ("11 final_score\n", "=11 B+4.5\n\n"),
            ("12 final_score\n", "=12 B+3.5\n\n"),
            ("13 final_score\n", "=13 B+3.5\n\n"),
            ("14 final_score\n", "=14 B+5.5\n\n"),
        ],
        None,
    ),
    // Three in a row are the same where a failure comes between them, or a score that is compared with nothing.
    (
        &[
            ("6 komi 0.5\n", "=6\n\n"),
            ("7 final_score\n", "=7 B+3.5\n\n"),
            ("8 final_score\n", "?8 cannot score\n\n"),
            ("9 final_score\n", "=9 B+3.5\n\n"),
            ("10 komi 1000.5\n", "=10\n\n"),
            ("11 final_score\n", "=11 B+3.5\n\n"),
            ("12 komi 0.5\n", "=12\n\n"),
            ("13 final_score\n", "=13 B+3.5\n\n"),
            ("14 final_score\n", "=14 B+5.5\n\n"),
        ],
        Some(Kind::OtherScore),
    ),
    // After a score that was given three times, scores have to differ as the komis do: by 7 points.
    (
        &[
            ("6 komi 0.5\n", "=6\n\n"),
            ("7 final_score\n", "=7 B+3.5\n\n"),
            ("8 final_score\n", "=8 B+3.50\n\n"),
            ("9 final_score\n", "=9 B+3.50\n\n"),
            ("10 komi 7.5\n", "=10\n\n"),
            ("11 final_score\n", "=11 W+3.5\n\n"),
        ],
        None,
    ),
    (
        &[
            ("6 komi 0.5\n", "=6\n\n"),
            ("7 final_score\n", "=7 B+3.5\n\n"),
            ("8 final_score\n", "=8 B+3.5\n\n"),
            ("9 final_score\n", "=9 B+3.5\n\n"),
            ("10 komi 7.5\n", "=10\n\n"),
            ("11 final_score\n", "=11 B+3.5\n\n"),
        ],
        Some(Kind::OtherScore),
    ),
    (
        &[
            ("6 komi 0.5\n", "=6\n\n"),
            ("7 final_score\n", "=7 B+3.5\n\n"),
            ("8 final_score\n", "=8 B+3.5\n\n"),
            ("9 final_score\n", "=9 B+3.5\n\n"),
            ("10 komi 7.5\n", "=10\n\n"),
            ("11 final_score\n", "=11 W+4.0\n\n"),
        ],
        Some(Kind::OtherScore),
    ),
    // They may differ by one in the last digit: a tenth here, and a point there.
    (
        &[
            ("6 komi 0.5\n", "=6\n\n"),
            ("7 final_score\n", "=7 B+3.5\n\n"),
            ("8 final_score\n", "=8 B+3.5\n\n"),
            ("9 final_score\n", "=9 B+3.5\n\n"),
            ("10 komi 7.5\n", "=10\n\n"),
            ("11 final_score\n", "=11 W+3.60\n\n"),
        ],
        None,
    ),
    (
        &[
            ("6 komi 0.5\n", "=6\n\n"),
            ("7 final_score\n", "=7 B+3.5\n\n"),
            ("8 final_score\n", "=8 B+3.5\n\n"),
            ("9 final_score\n", "=9 B+3.5\n\n"),
            ("10 komi 7.5\n", "=10\n\n"),
            ("11 final_score\n", "=11 W+3.61\n\n"),
        ],
        Some(Kind::OtherScore),
    ),
    (
        &[
            ("6 komi 0.5\n", "=6\n\n"),
            ("7 final_score\n", "=7 B+3.5\n\n"),
            ("8 final_score\n", "=8 B+3.5\n\n"),
            ("9 final_score\n", "=9 B+3.5\n\n"),
            ("10 komi 7.5\n", "=10\n\n"),
            ("11 final_score\n", "=11 W+4\n\n"),
        ],
        None,
    ),
    // They may differ by a hundredth of a point, however many digits are written. Here 3.641593 less 999.5 is
    // -995.858407.
    (
        &[
            ("6 komi 0.5\n", "=6\n\n"),
            ("7 final_score\n", "=7 B+3.141593\n\n"),
            ("8 final_score\n", "=8 B+3.141593\n\n"),
            ("9 final_score\n", "=9 B+3.141593\n\n"),
            ("10 komi 999.5\n", "=10\n\n"),
            ("11 final_score\n", "=11 W+995.848407\n\n"),
        ],
        None,
    ),
    (
        &[
            ("6 komi 0.5\n", "=6\n\n"),
            ("7 final_score\n", "=7 B+3.141593\n\n"),
            ("8 final_score\n", "=8 B+3.141593\n\n"),
            ("9 final_score\n", "=9 B+3.141593\n\n"),
            ("10 komi 999.5\n", "=10\n\n"),
            ("11 final_score\n", "=11 W+995.848406\n\n"),
        ],
        Some(Kind::OtherScore),
    ),
    // A failure is right at any time, and a komi beyond a thousand points is compared with nothing.
    (
        &[
            ("6 komi 0.5\n", "=6\n\n"),
            ("7 final_score\n", "=7 B+3.5\n\n"),
            ("8 final_score\n", "=8 B+3.5\n\n"),
            ("9 final_score\n", "=9 B+3.5\n\n"),
            ("10 final_score\n", "?10 cannot score\n\n"),
            ("11 komi 1000.5\n", "=11\n\n"),
            ("12 final_score\n", "=12 B+3.5\n\n"),
        ],
        None,
    ),
    (
        &[
            ("6 komi 0.5\n", "=6\n\n"),
            ("7 final_score\n", "=7 B+3.5\n\n"),
            ("8 final_score\n", "=8 B+3.5\n\n"),
            ("9 final_score\n", "=9 B+3.5\n\n"),
            ("10 komi -1000\n", "=10\n\n"),
            ("11 final_score\n", "=11 B+1003.9\n\n"),
        ],
        None,
    ),
    (
        &[
            ("6 komi 0.5\n", "=6\n\n"),
            ("7 final_score\n", "=7 B+3.5\n\n"),
            ("8 final_score\n", "=8 B+3.5\n\n"),
            ("9 final_score\n", "=9 B+3.5\n\n"),
            ("10 komi -1000\n", "=10\n\n"),
            ("11 final_score\n", "=11 B+1002\n\n"),
        ],
        Some(Kind::OtherScore),
    ),
    // Scores are read with any number of digits, and with a letter before a zero.
    (
        &[
            ("6 komi 6.5\n", "=6\n\n"),
            ("7 final_score\n", "=7 B+1000000000.0\n\n"),
            ("8 final_score\n", "=8 B+0\n\n"),
            ("9 final_score\n", "=9 0.00\n\n"),
            ("10 final_score\n", "=10 W+.0000001\n\n"),
        ],
        None,
    ),
    (
        &[
            ("6 komi 6.5\n", "=6\n\n"),
            ("7 final_score\n", "=7 W+-6.5\n\n"),
        ],
        Some(Kind::NoScore),
    ),
    (
        &[
            ("6 komi 6.5\n", "=6\n\n"),
            ("7 final_score\n", "=7 6.5\n\n"),
        ],
        Some(Kind::NoScore),
    ),
    (
        &[
            ("6 komi 6.5\n", "=6\n\n"),
            ("7 final_score\n", "=7 W+.\n\n"),
        ],
        Some(Kind::NoScore),
    ),
    // A number may end with an exponent. It isn't read, so such a score is compared with nothing, and changes nothing.
    (
        &[
            ("6 komi 0.5\n", "=6\n\n"),
            ("7 final_score\n", "=7 B+3.5\n\n"),
            ("8 final_score\n", "=8 B+3.5\n\n"),
            ("9 final_score\n", "=9 B+3.5\n\n"),
            ("10 final_score\n", "=10 W+8.38861e+06\n\n"),
            ("11 final_score\n", "=11 B+1E7\n\n"),
            ("12 final_score\n", "=12 W+.5e-1\n\n"),
            ("13 final_score\n", "=13 B+3.e0\n\n"),
            ("14 final_score\n", "=14 B+5\n\n"),
        ],
        Some(Kind::OtherScore),
    ),
    // A zero is one without a letter, too, whatever its exponent.
    (
        &[
            ("6 komi 6.5\n", "=6\n\n"),
            ("7 final_score\n", "=7 0e0\n\n"),
            ("8 final_score\n", "=8 0.000000e+00\n\n"),
            ("9 final_score\n", "=9 .0E-5\n\n"),
            ("10 final_score\n", "=10 1e0\n\n"),
        ],
        Some(Kind::NoScore),
    ),
    // An exponent has digits and nothing else, and a digit stands before it.
    (
        &[
            ("6 komi 6.5\n", "=6\n\n"),
            ("7 final_score\n", "=7 B+1e\n\n"),
        ],
        Some(Kind::NoScore),
    ),
    (
        &[
            ("6 komi 6.5\n", "=6\n\n"),
            ("7 final_score\n", "=7 B+e5\n\n"),
        ],
        Some(Kind::NoScore),
    ),
    (
        &[
            ("6 komi 6.5\n", "=6\n\n"),
            ("7 final_score\n", "=7 B+1e+\n\n"),
        ],
        Some(Kind::NoScore),
    ),
    (
        &[
            ("6 komi 6.5\n", "=6\n\n"),
            ("7 final_score\n", "=7 B+1e5.5\n\n"),
        ],
        Some(Kind::NoScore),
    ),
    (
        &[
            ("6 komi 6.5\n", "=6\n\n"),
            ("7 final_score\n", "=7 B+.e5\n\n"),
        ],
        Some(Kind::NoScore),
    ),
    (
        &[
            ("6 komi 6.5\n", "=6\n\n"),
            ("7 final_score\n", "=7 B+1e5e5\n\n"),
        ],
        Some(Kind::NoScore),
    ),
    (
        &[
            ("6 komi 6.5\n", "=6\n\n"),
            ("7 final_score\n", "=7 B+1e+-5\n\n"),
        ],
        Some(Kind::NoScore),
    ),
    (
        &[("6 komi 6.5\n", "=6\n\n"), ("7 final_score\n", "=7 e5\n\n")],
        Some(Kind::NoScore),
    ),
    (
        &[
            ("6 komi 6.5\n", "=6\n\n"),
            ("7 final_score\n", "=7 B+1f5\n\n"),
        ],
        Some(Kind::NoScore),
    ),
    // A komi of more than 2 to the 24 half points may be refused, and one of exactly that has to be accepted.
    (
        &[
            ("6 komi 8388608.5\n", "?6 not a float\n\n"),
            ("7 komi -8388608\n", "?7 no\n\n"),
        ],
        Some(Kind::Refused),
    ),
];

#[test]
fn scores_are_compared_with_one_that_was_said_three_times(rt: HostRuntime) {
    for (steps, kind) in &SCORES {
        let mut examiner = begun(&rt, "1 boardsize 5\n");
        let mut found = None;
        for (line, reply) in *steps {
            assert_equal_for(&rt, (*line, *reply), found, None);
            ask(&rt, &mut examiner, line);
            found = hear(&rt, &mut examiner, reply.as_bytes());
        }
        assert_equal_for(&rt, *steps, found, *kind);
    }
}

#[test]
fn no_score_is_asked_after_a_komi_that_may_be_no_float(rt: HostRuntime) {
    let mut examiner = begun(&rt, "1 boardsize 5\n");
    assert_true(&rt, !may_ask(&rt, &examiner, "final_score"));
    ask(&rt, &mut examiner, "6 komi 6.5\n");
    // An engine's opinion isn't known before its answer, so a score is asked alone.
    assert_true(&rt, !may_ask(&rt, &examiner, "final_score"));
    assert_equal(&rt, hear(&rt, &mut examiner, b"=6\n\n"), None);
    ask(&rt, &mut examiner, "7 final_score\n");
    assert_true(&rt, !may_ask(&rt, &examiner, "name"));
    assert_equal(&rt, hear(&rt, &mut examiner, b"=7 W+6.5\n\n"), None);
    assert_true(&rt, examiner.opinion() != Opinion::Unheard);
    ask(&rt, &mut examiner, "8 komi 8388608.5\n");
    assert_equal(&rt, hear(&rt, &mut examiner, b"=8\n\n"), None);
    assert_true(&rt, !may_ask(&rt, &examiner, "final_score"));
    ask(&rt, &mut examiner, "9 komi 8388608\n");
    assert_equal(&rt, hear(&rt, &mut examiner, b"=9\n\n"), None);
    assert_true(&rt, may_ask(&rt, &examiner, "final_score"));
    // A new start has no opinion.
    let mut examiner = begun(&rt, "1 boardsize 5\n");
    assert_true(&rt, examiner.opinion() == Opinion::Unheard);
    examiner.lost();
}
