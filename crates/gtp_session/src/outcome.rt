//! The result of a command, and how it is written as a reply.
ghost use Rattle.std.specs.Prelude.{◌≡◌, ◌≤◌, length, true};
ghost use Rattle.gtp_wire.specs.Replies.{most_text_bytes, written_reply};
ghost use Rattle.go_board.specs.Show.{board_text};
ghost use Rattle.gtp_session.specs.Commands.{all_names};
ghost use Rattle.gtp_session.specs.private.Outcome.{text_of, answer_of};

use crate::commands::all_names;
use arrayvec::ArrayVec;
use go_base::{Point, Vertex, write_int, write_score, write_vertices};
use go_board::Game;
use gtp_wire::{ReplyText, write_reply_into};

/// The result of a command: the text of its success or of its failure.
pub(crate) type Outcome = Result<Text, &'static [u8]>;

/// The text of a success.
#[derive(Drop)]
pub(crate) enum Text {
    /// No bytes.
    Empty,
    /// These bytes.
    Fixed(&'static [u8]),
    /// A number, in decimal digits.
    Number(u32),
    /// The names of the commands, a line each.
    Names,
    /// A vertex.
    Vertex(Vertex),
    /// The vertices of these handicap stones.
    Handicap(ArrayVec<Point, 9>),
    /// A score in half points.
    Score(i32),
    /// The board.
    Board,
}

/// Writes the reply of a command that left this game over what `reply` holds.
pub(crate) fn write_outcome(outcome: &Outcome, game: &Game, id: Option<u32>, reply: &mut ReplyText)
    requires { length (answer_of game.now outcome.now).text ≤ most_text_bytes }
    ensures { let answer = answer_of game.now outcome.now in
        reply.new.items ≡ written_reply answer.ok id answer.text }
{
    match outcome {
        Ok(text) => write_success(text, game, id, reply),
        Err(text) => write_reply_into(reply, false, id, text),
    }
}

/// Writes the reply of a success over what `reply` holds.
fn write_success(text: &Text, game: &Game, id: Option<u32>, reply: &mut ReplyText)
    requires { length (text_of game.now text.now) ≤ most_text_bytes }
    ensures { reply.new.items ≡ written_reply true id (text_of game.now text.now) }
{
    match text {
        Text::Empty => write_reply_into(reply, true, id, b""),
        Text::Fixed(bytes) => write_reply_into(reply, true, id, bytes),
        Text::Number(number) => write_reply_into(reply, true, id, &write_int(*number)),
        Text::Names => write_names(id, reply),
        Text::Vertex(vertex) => write_reply_into(reply, true, id, &vertex.write()),
        Text::Handicap(points) => write_reply_into(reply, true, id, &write_vertices(points)),
        Text::Score(half_points) => write_reply_into(reply, true, id, &write_score(*half_points)),
        Text::Board => write_board(game, id, reply),
    }
}

/// Writes a reply with the names of the commands over what `reply` holds. This is a function of its own because nothing
/// else needs stack space for the names.
fn write_names(id: Option<u32>, reply: &mut ReplyText)
    ensures { reply.new.items ≡ written_reply true id all_names }
{
    write_reply_into(reply, true, id, &all_names());
}

/// Writes a reply with the board over what `reply` holds.
fn write_board(game: &Game, id: Option<u32>, reply: &mut ReplyText)
    requires { length (board_text game.now) ≤ most_text_bytes }
    ensures { reply.new.items ≡ written_reply true id (board_text game.now) }
{
    write_reply_into(reply, true, id, &game.show());
}
