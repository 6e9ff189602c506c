//! The board that a complaint shows.
ghost use Rattle.std.specs.Prelude.{◌≡◌, ◌++◌, ◌≤◌, OnOk, MatchBool};
ghost use Rattle.std.specs.List.{flat_map};
ghost use Rattle.go_base.specs.Decide.{holds};
ghost use Rattle.go_base.specs.Point.{point, IsCrossing};
ghost use Rattle.go_base.specs.Size.{most_size};
ghost use Rattle.go_board.specs.Board.{stone_at, HasStone};
ghost use Rattle.go_board.specs.Game.{board_of};
ghost use Rattle.go_board.specs.decisions.Game.{stone?};
ghost use Rattle.gtp_check_texts.specs.Board.{comment_line, drawn_board, IsBlankRow};
ghost use Rattle.gtp_check_texts.specs.Lines.{all_but_last, lines_of};

use crate::lines::ended_line;
use crate::texts::add_all;
use go_base::{Colour, Point};
use go_board::Game;
use std::alloc::AllocError;

/// Appends the board of a game as lines that begin with `#`: its rows from the top down, then the columns' letters. It
/// appends nothing if the board has no stone.
///
/// # Errors
///
/// If memory can't be allocated.
pub fn add_board(text: &mut Vec<u8>, game: &Game) -> Result<(), AllocError>
    ensures { OnOk result (text.new.items ≡ text.old.items ++ drawn_board game.now) }
{
    if !has_stone(game) {
        return Ok(());
    }
    add_comments(text, &game.show())
}

/// Appends all lines of a text except the last, each after `# `.
fn add_comments(text: &mut Vec<u8>, shown: &[u8]) -> Result<(), AllocError>
    ensures { OnOk result (text.new.items
        ≡ text.old.items ++ flat_map comment_line (all_but_last (lines_of shown.now))) }
{
    let mut left = shown;
    while let Some((line, more)) = ended_line(left) {
        add_all(text, &[b"# ", line, b"\n"])?;
        left = more;
    }
    Ok(())
}

/// Returns whether there is a stone on the board.
fn has_stone(game: &Game) -> bool
    ensures { result ≡ holds (stone? (board_of game.now)) }
{
    for row in 1..game.size().get() + 1 {
        if has_stone_in_row(game, row) {
            return true;
        }
    }
    false
}

/// Returns whether there is a stone on a row of the board.
fn has_stone_in_row(game: &Game, row: u32) -> bool
    requires least { 1 ≤ row }
    requires most { row ≤ most_size }
    ensures { MatchBool result (HasStone (board_of game.now)) (IsBlankRow game.now row) }
{
    for column in 1..game.size().get() + 1 {
        if stone_on(game, column, row).is_some() {
            return true;
        }
    }
    false
}

/// Returns the stone where a column and a row cross.
fn stone_on(game: &Game, column: u32, row: u32) -> Option<Colour>
    requires { IsCrossing column row }
    ensures { result ≡ stone_at (board_of game.now) (point column row) }
{
    let point = Point::new(column, row)?;
    game.at(point)
}
