//! What a run of the program has to do.
ghost use Rattle.std.specs.Prelude.{◌≡◌};
ghost use Rattle.gtp_process.specs.Starts.{program_line};
ghost use Rattle.twogtp_app.specs.Starts.{program_line_for};

use go_base::Side;
use gtp_match::Setup;

/// What to write besides the games' lines.
#[derive(Clone, Copy, Debug)]
pub struct Details {
    /// Whether to write the record of each game.
    pub record: bool,
    /// Whether to write the final board of each game.
    pub show: bool,
    /// Whether to report why a side failed, each refused play, and which komis or handicaps are allowed.
    pub why: bool,
}

/// The games of a run, and what to write about them.
#[derive(Clone, Copy, Debug)]
pub struct Task {
    /// The setup of each game.
    pub setup: Setup,
    /// The number of games.
    pub games: u32,
    /// What to write besides their lines.
    pub details: Details,
}

/// The commands that start the engines, each split into a program and its arguments.
#[derive(Drop)]
pub struct Commands<'a> {
    /// Black's engine.
    pub black: Vec<&'a str>,
    /// White's engine.
    pub white: Vec<&'a str>,
}

impl<'a> Commands<'a> {
    /// A side's command: the program and its arguments.
    pub fn of(&self, side: Side) -> &[&'a str]
        ensures { program_line result.now ≡ program_line_for self.now side }
    {
        match side {
            Side::Black => self.black.as_slice(),
            Side::White => self.white.as_slice(),
        }
    }
}
