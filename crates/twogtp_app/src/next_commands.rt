//! The commands that a side is sent in one write.
ghost use Rattle.std.specs.Prelude.{◌≡◌, ◌≢◌, true, false};
ghost use Rattle.gtp_match.specs.declared.verdicts.Action.TheVariants as action;
ghost use Rattle.gtp_match.specs.Next.{next};
ghost use Rattle.gtp_match.specs.Sound.{IsSound};
ghost use Rattle.twogtp_app.specs.Speaking.{TakesAllCommands};

use arrayvec::ArrayVec;
use go_base::{Side, push};
use gtp_match::{Action, MOST_UNANSWERED, Match};
use gtp_wire::MOST_COMMAND_BYTES;

/// The buffer size for all commands that a side may have unanswered.
const TEXT_ROOM: usize = MOST_UNANSWERED * MOST_COMMAND_BYTES;

/// The bytes of several commands in a row.
pub type CommandsText = ArrayVec<u8, TEXT_ROOM>;

/// Takes the commands that come next for a side, up to the first other action, marks them as sent, and returns their
/// bytes.
pub fn take_commands(game: &mut Match, side: Side) -> CommandsText
    ensures { TakesAllCommands game.old side result.items game.new }
{
    let mut text = ArrayVec::new();
    for _number in 0..MOST_UNANSWERED {
        if !is_to_send(game, side) {
            return text;
        }
        push(&mut text, &game.send(side));
    }
    text
}

/// Whether the next action is a command to this side.
fn is_to_send(game: &Match, side: Side) -> bool
    ensures yes { result ≡ true → next game.now ≡ action.Send side }
    ensures no { result ≡ false → next game.now ≢ action.Send side }
    ensures sound { IsSound game.now }
{
    match (game.next(), side) {
        (Action::Send(Side::Black), Side::Black) | (Action::Send(Side::White), Side::White) => true,
        _ => false,
    }
}
