//! The laws, applied to policy makers of our own.
use super::policies::Kind;
use gtp_world::laws;

#[test]
fn the_laws_hold_of_each_maker() {
    laws::openings_are_joined::<Kind, Kind>();
    laws::an_act_keeps_it::<Kind, Kind>();
    laws::a_broken_write_keeps_it::<Kind, Kind>();
    laws::bytes_to_an_engine_keep_it::<Kind, Kind>();
    laws::bytes_to_the_controller_keep_it::<Kind, Kind>();
    laws::a_crash_keeps_it::<Kind, Kind>();
    laws::an_end_keeps_it::<Kind, Kind>();
    laws::joined_worlds_agree::<Kind, Kind>();
    laws::worlds_always_agree::<Kind, Kind>();
    laws::no_side_is_blamed::<Kind, Kind>();
    laws::only_breaks_put_a_side_down::<Kind, Kind>();
    laws::worlds_settle::<Kind, Kind>();
    laws::engines_in_step_are_there::<Kind, Kind>();
    laws::settled_worlds_are_caught_up::<Kind, Kind>();
    laws::worlds_of_steps_go_along::<Kind>();
    laws::engines_in_steps_are_there::<Kind>();
    laws::worlds_of_steps_catch_up::<Kind>();
}
