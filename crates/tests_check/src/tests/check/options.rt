//! The command line, and the plan.
use crate::asserts::{assert_equal, assert_true_for};
use cli::failure::PlanError;
use go_base::Size;
use go_board::KoRule;
use gtp_check_app::failure::Mistake;
use gtp_check_app::options::read_options;
use gtp_check_app::plan::plan_of;
use gtp_check_course::{Lesson, Unasked};
use std::test::Fail;

#[test]
fn options_have_defaults_and_lessons_are_chosen_in_their_order(
    rt: HostRuntime,
) -> Result<(), Fail> {
    let words = ["gtp_check", " an  engine "];
    let options = read_options(rt.alloc(), words.as_slice())?;
    assert_equal(&rt, options.rule, KoRule::Simple);
    assert_equal(&rt, options.unasked, Unasked::default());
    assert_equal(
        &rt,
        (options.size, options.seed, options.restarts, options.trials),
        (0, 1, 200, 60),
    );
    let plan = plan_of(rt.alloc(), &options, false)?;
    assert_equal(&rt, plan.words.len(), 2);
    assert_equal(&rt, plan.scene_size, None);
    assert_equal(&rt, plan.lessons.len(), 15);
    assert_equal(&rt, plan.left_out.len(), 0);
    let words = [
        "gtp_check",
        "engine",
        "--quick",
        "--only",
        "komi",
        "--only",
        "ko",
        "--only",
        "start",
        "--skip",
        "start",
        "--size",
        "9",
        "--ko",
        "positional",
        "--suicide",
        "unasked",
    ];
    let options = read_options(rt.alloc(), words.as_slice())?;
    assert_equal(&rt, options.rule, KoRule::Positional);
    let plan = plan_of(rt.alloc(), &options, false)?;
    let unasked = Unasked {
        suicide: true,
        ..Unasked::default()
    };
    assert_equal(&rt, plan.unasked, unasked);
    assert_equal(&rt, plan.lessons.as_slice(), [Lesson::Ko].as_slice());
    assert_equal(&rt, plan.left_out.len(), 14);
    assert_equal(&rt, plan.scene_size, Size::new(9));
    Ok(())
}

/// What the options of ko and of scores say: the game's ko rule, and whether ko and scores are left out.
static RULES: [([&str; 2], (KoRule, bool, bool)); 4] = [
    (
        ["--ko=simple", "--score=asked"],
        (KoRule::Simple, false, false),
    ),
    (
        ["--ko=positional", "--score=unasked"],
        (KoRule::Positional, false, true),
    ),
    (
        ["--ko=unasked", "--score=asked"],
        (KoRule::Positional, true, false),
    ),
    (
        ["--ko=unasked", "--score=unasked"],
        (KoRule::Positional, true, true),
    ),
];

#[test]
fn ko_and_scores_may_be_left_out(rt: HostRuntime) -> Result<(), Fail> {
    for ([ko, score], (rule, leaves_ko, leaves_scores)) in &RULES {
        let words = ["gtp_check", "engine", ko, score];
        let options = read_options(rt.alloc(), words.as_slice())?;
        let unasked = Unasked {
            suicide: false,
            ko: *leaves_ko,
            score: *leaves_scores,
        };
        assert_equal(&rt, (options.rule, options.unasked), (*rule, unasked));
    }
    Ok(())
}

/// Arguments that give no plan, and why.
static NO_PLANS: [([&str; 4], Mistake); 4] = [
    (["gtp_check", "  ", "--seed", "1"], Mistake::NoCommand),
    (
        ["gtp_check", " ", "--skip=ko", "--only=ko"],
        Mistake::NoCommand,
    ),
    (
        ["gtp_check", "engine", "--skip=ko", "--only=ko"],
        Mistake::NoLesson,
    ),
    (
        ["gtp_check", "engine", "--quick", "--only=komi"],
        Mistake::NoLesson,
    ),
];

#[test]
fn a_plan_has_a_command_and_a_lesson(rt: HostRuntime) -> Result<(), Fail> {
    for (words, mistake) in &NO_PLANS {
        let options = read_options(rt.alloc(), words.as_slice())?;
        let why = match plan_of(rt.alloc(), &options, false) {
            Err(PlanError::BadWords(why)) => Some(why),
            _ => None,
        };
        assert_equal(&rt, why, Some(*mistake));
    }
    Ok(())
}

/// Arguments in which one option is out of its range, or has an unknown name.
static BEYOND: [[&str; 4]; 9] = [
    ["gtp_check", "engine", "--size", "4"],
    ["gtp_check", "engine", "--size", "26"],
    ["gtp_check", "engine", "--restarts", "1001"],
    ["gtp_check", "engine", "--trials", "1001"],
    ["gtp_check", "engine", "--timeout", "0"],
    ["gtp_check", "engine", "--start-timeout", "86401"],
    ["gtp_check", "engine", "--only", "nothing"],
    ["gtp_check", "engine", "--suicide", "allowed"],
    ["gtp_check", "engine", "--score", "forbidden"],
];

#[test]
fn numbers_have_limits(rt: HostRuntime) {
    for words in &BEYOND {
        let options = read_options(rt.alloc(), words.as_slice());
        assert_true_for(&rt, *words, options.is_err());
    }
}

/// The least and the greatest value of each option: the size, the seed, the restarts and the trials.
static WITHIN: [([&str; 4], (u32, u32, u32, u32)); 2] = [
    (
        ["--size=5", "--seed=0", "--restarts=0", "--trials=0"],
        (5, 0, 0, 0),
    ),
    (
        [
            "--size=25",
            "--seed=4294967295",
            "--restarts=1000",
            "--trials=1000",
        ],
        (25, 4_294_967_295, 1000, 1000),
    ),
];

#[test]
fn numbers_at_their_limits_are_taken(rt: HostRuntime) -> Result<(), Fail> {
    for ([size, seed, restarts, trials], numbers) in &WITHIN {
        let words = ["gtp_check", "engine", size, seed, restarts, trials];
        let options = read_options(rt.alloc(), words.as_slice())?;
        let read = (options.size, options.seed, options.restarts, options.trials);
        assert_equal(&rt, read, *numbers);
    }
    Ok(())
}
