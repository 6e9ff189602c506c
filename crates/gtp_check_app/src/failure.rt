//! The usage errors that the program reports itself, and its name, which begins the lines of usage errors and failures.
ghost use Rattle.gtp_check_app.specs.Mistakes.{mistake_text};

use cli::failure::MistakeText;

/// The program's name.
pub const NAME: &[u8] = b"gtp_check";

/// A usage error for which `clap` has no text.
#[derive(Clone, Copy, Debug, PartialEq, Eq, Drop)]
pub enum Mistake {
    /// The engine's command is missing, or has only spaces.
    NoCommand,
    /// `--only`, `--skip` and `--quick` leave no lesson to run.
    NoLesson,
}

impl MistakeText for Mistake {
    ghost called = { mistake_text };

    fn text(&self) -> &'static [u8] {
        match self {
            Mistake::NoCommand => b"no command of an engine",
            Mistake::NoLesson => b"--only, --skip and --quick leave no lesson to ask",
        }
    }
}
