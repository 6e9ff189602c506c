//! An engine that speaks the Go Text Protocol, version 2, on its standard input and output.
#![tactic(auto)]

use cli::standard::hold_closed;
use cli::words::arguments;
use gtp_engine_app::failure::{Failure, report};
use gtp_engine_app::run::run;
use gtp_session::streams::Counted;
use std::process::ExitCode;

/// Replaces each closed standard stream by the null device, runs the engine, and exits with its status.
fn main(rt: HostRuntime) -> ExitCode {
    let status = match hold_closed(&rt, rt.stdin(), rt.stdout(), rt.stderr()) {
        // The streams stay replaced until the engine has ended.
        Ok(_held) => answer(&rt),
        Err(_) => report(Failure::NoNullDevice, &mut rt.stderr()),
    };
    ExitCode::from(status)
}

/// Runs the engine on the arguments and the standard streams, and returns the exit status.
fn answer(rt: &HostRuntime) -> u8 {
    let errors = &mut rt.stderr();
    match arguments(rt) {
        Ok(words) => run(
            rt.alloc(),
            words.as_slice(),
            &mut Counted::new(rt.stdin()),
            &mut Counted::new(rt.stdout()),
            errors,
        ),
        Err(error) => report(Failure::of_arguments(error.kind()), errors),
    }
}
