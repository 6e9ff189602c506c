//! What was found and noted.
use crate::asserts::assert_equal;
use gtp_check_app::tally::Tally;
use gtp_check_course::Lesson;
use gtp_check_judge::Kind;
use gtp_check_talk::Fault;
use gtp_check_talk::notes::Notes;

#[test]
fn three_of_a_kind_are_shown_and_starts_without_a_right_answer_are_counted(rt: HostRuntime) {
    let mut tally = Tally::new(1);
    let refused = Fault::Wrote(Kind::Refused);
    let mut shown: u32 = 0;
    for _time in 0..5u32 {
        if tally.find(Lesson::Ko, refused) {
            shown = shown.saturating_add(1);
        }
    }
    assert_equal(&rt, shown, 3);
    assert_equal(
        &rt,
        tally.find(Lesson::Ko, Fault::Wrote(Kind::NoMove)),
        true,
    );
    assert_equal(&rt, tally.find(Lesson::Komi, refused), false);
    assert_equal(&rt, (tally.hidden[4], tally.hidden[9]), (2, 1));
    assert_equal(&rt, tally.complaints, 7);
    assert_equal(&rt, tally.may_start(), true);
    tally.start();
    assert_equal(&rt, tally.starts_left, 0);
    tally.count_unjudged();
    tally.start();
    assert_equal(&rt, tally.may_start(), true);
    assert_equal(&rt, (tally.unjudged, tally.complaints), (1, 7));
    let mut notes = Notes::new();
    notes.start();
    notes.start();
    assert_equal(&rt, notes.unanswered_starts, 2);
    assert_equal(&rt, notes.has_answered, false);
}
