//! Runs of worlds.
use crate::asserts::some;
use go_base::{Komi, Size};
use gtp_match::Setup;
use std::process::Abort;

mod laws;
mod policies;
mod rows;
mod scenes;
mod settling;
mod steps;

/// A setup of size 2, komi 0, no handicap, 10 moves and 1 restart.
fn small_setup(rt: &impl Abort) -> Setup {
    let size = some(rt, Size::new(2));
    let komi = some(rt, Komi::from_half_points(0));
    some(rt, Setup::new(size, komi, 0, 10, 1).ok())
}
