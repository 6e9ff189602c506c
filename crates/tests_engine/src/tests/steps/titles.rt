//! Names and versions that are set at any time.
use crate::asserts::{assert_equal, assert_equal_for};
use crate::tests::steps::{Taken, feed_all};
use go_board::KoRule;
use gtp_session::steps::Steps;

/// Two lines of which the first ends after 7 bytes, and the second after 17.
static LINES: &[u8] = b"1 name\n2 version\n";

#[test]
fn titles_are_those_at_the_end_of_the_line(rt: HostRuntime) {
    for count in 0..=LINES.len() {
        let mut taken = Taken::new();
        let mut steps = Steps::new(KoRule::Simple);
        let (front, rest) = LINES.split_at(count.min(LINES.len()));
        feed_all(&rt, &mut steps, front, &mut taken);
        assert_equal(&rt, steps.set_name(b"An Engine"), Ok(()));
        assert_equal(&rt, steps.set_version(b""), Ok(()));
        feed_all(&rt, &mut steps, rest, &mut taken);
        let output: &[u8] = match count {
            0..=6 => b"=1 An Engine\n\n=2\n\n",
            7..=16 => b"=1 stepgo\n\n=2\n\n",
            _ => b"=1 stepgo\n\n=2 1.0\n\n",
        };
        assert_equal_for(&rt, count, taken.as_slice(), output);
    }
}
