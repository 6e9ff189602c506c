//! Conversations, from the bytes in to the bytes out.
use crate::asserts::assert_equal_for;
use crate::tests::sessions::commands::CONVERSATIONS;
use crate::tests::steps::{Taken, feed_all};
use go_board::KoRule;
use gtp_session::steps::Steps;

#[test]
fn conversations_are_answered_in_any_cuts(rt: HostRuntime) {
    for (name, input, output, _served) in &CONVERSATIONS {
        let mut taken = Taken::new();
        let mut steps = Steps::new(KoRule::Simple);
        for byte in *input {
            feed_all(&rt, &mut steps, &[*byte], &mut taken);
        }
        assert_equal_for(&rt, name, taken.as_slice(), output);
        for first in 0..=input.len() {
            let mut taken = Taken::new();
            let mut steps = Steps::new(KoRule::Simple);
            let (front, rest) = input.split_at(first.min(input.len()));
            feed_all(&rt, &mut steps, front, &mut taken);
            feed_all(&rt, &mut steps, rest, &mut taken);
            assert_equal_for(&rt, (name, first), taken.as_slice(), output);
        }
    }
}
