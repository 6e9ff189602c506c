//! A move that a `genmove` chose, if that isn't judged.
ghost use Rattle.std.specs.Prelude.{◌≡◌, None, IsSome};
ghost use Rattle.gtp_check_talk.specs.Said.{is_same_purpose};
ghost use Rattle.gtp_check_app.specs.Turns.{PassesOver, purpose_in, state_of};
ghost use Rattle.gtp_check_app.specs.Unjudged.{HasPassedOver, is_blamed, is_unjudged};

use crate::check::{Check, purpose_in};
use gtp_check_course::{Course, Unasked};
use gtp_check_judge::Kind;
use gtp_check_talk::{Fault, Purpose};
use gtp_process::{Process, Starter};

/// Returns whether something is wrong that is judged.
pub fn is_blamed(unasked: Unasked, fault: Option<Fault>) -> bool
    ensures { result ≡ is_blamed unasked fault }
{
    match fault {
        Some(fault) => !is_unjudged(unasked, fault),
        None => false,
    }
}

/// Returns whether a `genmove` was answered with a move that isn't judged.
fn is_unjudged(unasked: Unasked, fault: Fault) -> bool
    ensures { result ≡ is_unjudged unasked fault }
{
    match fault {
        Fault::Wrote(Kind::Unlawful(cause)) => unasked.spares(cause),
        _ => false,
    }
}

impl<S: Starter> Check<S> {
    /// Ends the engine, which chose a move that isn't judged. Counts that, and leaves the part of the lesson.
    pub fn pass_over(&mut self)
        requires { IsSome self.old.engine }
        ensures passes { PassesOver S.Process.Process (state_of self.old) (state_of self.new) }
        ensures gone { self.new.engine ≡ None }
    {
        let Some(engine) = self.engine.take() else {
            return;
        };
        let purpose = engine.owed_purpose(&self.examiner);
        self.examiner.lost();
        let _ = engine.end();
        leave_part(&mut self.course, purpose);
        self.tally.count_unjudged();
    }
}

/// Leaves the part for which this was asked, if the course is in it.
fn leave_part(course: &mut Course, purpose: Purpose)
    ensures { HasPassedOver (is_same_purpose purpose (purpose_in course.old))
        course.old course.new }
{
    let now = purpose_in(course);
    if purpose.is_same(now) {
        course.pass_on();
    }
}
