//! Checks one engine that speaks the Go Text Protocol, version 2.
#![tactic(auto)]

use cli::failure::{Failure, report_arguments};
use cli::standard::hold_closed;
use cli::words::arguments;
use gtp_check_app::failure::NAME;
use gtp_check_app::run::run;
use gtp_check_app::streams::Streams;
use gtp_process::{SystemStarter, TimedStarter};
use std::io::IsTerminal;
use std::process::ExitCode;

/// Keeps the closed standard streams from being reused, runs the check, and exits with its status.
fn main(rt: HostRuntime) -> ExitCode {
    let status = match hold_closed(&rt, rt.stdin(), rt.stdout(), rt.stderr()) {
        // They stay in use until the check is over.
        Ok(_held) => check_by(&rt),
        Err(_) => Failure::NoNullDevice.report(NAME, &mut rt.stderr()),
    };
    ExitCode::from(status)
}

/// Runs the check that the arguments ask for, and returns the status.
fn check_by(rt: &HostRuntime) -> u8 {
    match arguments(rt) {
        Ok(words) => run(
            rt.alloc(),
            words.as_slice(),
            rt.stderr().is_terminal(),
            &mut Streams {
                output: rt.stdout(),
                errors: rt.stderr(),
            },
            &mut TimedStarter::new(SystemStarter {
                alloc: rt.alloc(),
                system: rt,
                errors: rt.stderr(),
            }),
        ),
        Err(error) => report_arguments(NAME, error.kind(), &mut rt.stderr()),
    }
}
