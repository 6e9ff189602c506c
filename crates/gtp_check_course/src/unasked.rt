//! What an engine isn't asked, because right engines differ in it.
ghost use Rattle.std.specs.Prelude.{◌≡◌, true};
ghost use Rattle.gtp_check_course.specs.Course.{IsLeftOut, IsSpared, spares};

use go_base::Move;
use go_board::{Game, PlayFault};
use gtp_check_judge::CheckCommand;
use gtp_wire::Command;

/// What an engine isn't asked, because rule sets and engines differ in it. Each such step is passed over.
#[derive(Clone, Copy, Debug, Default, PartialEq, Eq)]
pub struct Unasked {
    /// A `play` that would be suicide. Else it is asked, and the engine has to refuse it.
    pub suicide: bool,
    /// A `play` that the game's ko rule forbids. Else it is asked, and the engine has to refuse it.
    pub ko: bool,
    /// `final_score`. Else it is asked on empty boards, and the scores have to differ as the komis do.
    pub score: bool,
}

impl Unasked {
    /// Returns whether a command is left out in this game.
    pub fn leaves_out(self, game: &Game, command: CheckCommand) -> bool
        ensures is { result ≡ true → IsLeftOut self game.now command }
        ensures only { IsLeftOut self game.now command → result ≡ true }
    {
        match command {
            CheckCommand::Match(Command::Play(made)) | CheckCommand::PlayInFull(made) => {
                self.spares_move(game, made)
            }
            CheckCommand::FinalScore => self.score,
            _ => false,
        }
    }

    /// Returns whether a move isn't asked in this game, because of why the rules refuse it.
    fn spares_move(self, game: &Game, made: Move) -> bool
        ensures is { result ≡ true → IsSpared self game.now made }
        ensures only { IsSpared self game.now made → result ≡ true }
    {
        match game.refusal(made.colour, made.vertex) {
            Some(fault) => self.spares(fault),
            None => false,
        }
    }

    /// Returns whether moves that are refused for this cause aren't asked.
    pub fn spares(self, fault: PlayFault) -> bool
        ensures { result ≡ spares self fault }
    {
        match fault {
            PlayFault::Suicide => self.suicide,
            PlayFault::Ko => self.ko,
            PlayFault::Full | PlayFault::OffBoard | PlayFault::Occupied => false,
        }
    }
}
