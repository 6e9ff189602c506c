//! The text of a game.
ghost use Rattle.std.specs.Prelude.{◌≡◌, ◌≤◌, ◌++◌};
ghost use Rattle.arrayvec.specs.ArrayVec.{array_vec_len};
ghost use Rattle.twogtp_app.specs.Games.{game_lines, result_part};

use crate::task::Task;
use arrayvec::ArrayVec;
use go_base::push;
use gtp_match::{Match, record_line, result_line};

/// The buffer size for the text of a game: 97 bytes of the result, 10,001 of the record, 2,002 of the board.
const GAME_ROOM: usize = 12100;

/// The text of a game.
pub type GameText = ArrayVec<u8, GAME_ROOM>;

/// The text of a game that is over: its result line, then its record under `--record`, then under `--show` its board
/// with an empty line after it.
pub fn game_text(task: &Task, number: u32, played: &Match) -> GameText
    ensures { result.items ≡ game_lines task.now number played.now }
{
    let mut text = ArrayVec::new();
    push_result(&mut text, number, played);
    if task.details.record {
        push(&mut text, record_line(played).as_slice());
        push(&mut text, b"\n");
    }
    if task.details.show {
        push(&mut text, played.game().show().as_slice());
        push(&mut text, b"\n\n");
    }
    text
}

/// Appends the result line.
fn push_result(text: &mut GameText, number: u32, played: &Match)
    requires { array_vec_len text.old ≡ 0 }
    ensures bytes { text.new.items ≡
        text.old.items ++ result_part number played.now played.now.verdict }
    ensures len { array_vec_len text.new ≤ 97 }
{
    if let Some(line) = result_line(number, played) {
        push(text, line.as_slice());
        push(text, b"\n");
    }
}
