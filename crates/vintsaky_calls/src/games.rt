//! The calls of a game.
ghost use Rattle.std.specs.Prelude.{◌≡◌, ◌≢◌, None, IfOk, IfErr};
ghost use Rattle.go_board.specs.Board.{stone_at};
ghost use Rattle.go_board.specs.Game.{board_of};
ghost use Rattle.go_board.specs.Show.{board_text};
ghost use Rattle.vintsaky_calls.specs.Codes.{rule_code};
ghost use Rattle.vintsaky_calls.specs.Games.{ListsTaken, PutsPoints, IsPointOn, RefusesPointCode, BeginCall, PlayCall};
ghost use Rattle.vintsaky_calls.specs.Games.{LegalCall, UndoCall, SetKomiCall, PlaceHandicapCall, LegalPointsCall};
ghost use Rattle.vintsaky_calls.specs.Games.{StoneAtCall, ChainCall, RefusesChain, MadeCall, CapturedCall};
ghost use Rattle.vintsaky_calls.specs.Texts.{Writes};

use crate::causes::{Cause, cause_of_play};
use crate::codes::{
    colour_of, number_of_colour, number_of_point, number_of_rule, number_of_vertex, point_of,
    rule_of, vertex_of,
};
use crate::texts::put;
use arrayvec::ArrayVec;
use go_base::{Komi, Point, Size};
use go_board::{Game, HandicapFault, MOST_POINTS};

/// Implements `vintsaky_game_begin`.
pub fn begin(game: &mut Game, rule: u32, size: u32, half_komi: i32) -> Result<(), Cause>
    ensures { BeginCall rule size half_komi game.old game.new result }
{
    let rule = rule_of(rule)?;
    let size = Size::new(size).ok_or(Cause::BadSize)?;
    let komi = Komi::from_half_points(half_komi).ok_or(Cause::BadKomi)?;
    *game = Game::with_rule(size, komi, rule);
    Ok(())
}

/// Implements `vintsaky_game_play`.
pub fn play(game: &mut Game, colour: u32, vertex: u32) -> Result<(), Cause>
    ensures { PlayCall colour vertex game.old game.new result }
{
    let colour = colour_of(colour)?;
    let vertex = vertex_of(vertex)?;
    game.play(colour, vertex).map_err(cause_of_play)
}

/// Implements `vintsaky_game_legal`.
pub fn legal(game: &Game, colour: u32, vertex: u32) -> Result<(), Cause>
    ensures { LegalCall game.now colour vertex result }
{
    let colour = colour_of(colour)?;
    let vertex = vertex_of(vertex)?;
    match game.refusal(colour, vertex) {
        None => Ok(()),
        Some(fault) => Err(cause_of_play(fault)),
    }
}

/// Implements `vintsaky_game_undo`.
pub fn undo(game: &mut Game) -> Result<(), Cause>
    ensures { UndoCall game.old game.new result }
{
    match game.undo() {
        Ok(_last) => Ok(()),
        Err(_none) => Err(Cause::NothingToUndo),
    }
}

/// Implements `vintsaky_game_set_komi`.
pub fn set_komi(game: &mut Game, half_komi: i32) -> Result<(), Cause>
    ensures { SetKomiCall half_komi game.old game.new result }
{
    let komi = Komi::from_half_points(half_komi).ok_or(Cause::BadKomi)?;
    game.set_komi(komi);
    Ok(())
}

/// Implements `vintsaky_game_place_handicap`.
pub fn place_handicap(game: &mut Game, stones: u32) -> Result<(), Cause>
    ensures { PlaceHandicapCall stones game.old game.new result }
{
    match game.place_handicap(stones) {
        Ok(_points) => Ok(()),
        Err(HandicapFault::NotEmpty) => Err(Cause::NotEmpty),
        Err(HandicapFault::BadNumber) => Err(Cause::BadHandicap),
    }
}

/// Implements `vintsaky_game_legal_points`.
pub fn legal_points(
    game: &Game,
    colour: u32,
    points: &mut [u32],
    count: &mut usize,
) -> Result<(), Cause>
    ensures { LegalPointsCall game.now colour points.old points.new count.old count.new result }
{
    let colour = colour_of(colour)?;
    let mut legal = ArrayVec::new();
    game.legal_points_into(colour, &mut legal);
    *count = put_points(&legal, points);
    Ok(())
}

/// Implements `vintsaky_game_taken_by_last_move`.
#[tactic(auto, using(crate::proofs::TakenPoints::none_listed))]
pub fn taken_by_last_move(game: &Game, points: &mut [u32]) -> usize
    ensures { ListsTaken game.now points.old points.new result }
{
    if !game.last_move_took() {
        return 0;
    }
    let mut taken = ArrayVec::new();
    game.taken_by_last_move_into(&mut taken);
    put_points(&taken, points)
}

/// Writes the numbers of points, if the buffer holds all of them. Returns how many there are.
pub(crate) fn put_points(points: &ArrayVec<Point, MOST_POINTS>, numbers: &mut [u32]) -> usize
    ensures { PutsPoints points.now.items numbers.old numbers.new result }
{
    let count = points.len();
    if count <= numbers.len() {
        for (place, point) in points.as_slice().iter().enumerate() {
            numbers[place] = number_of_point(*point);
        }
    }
    count
}

/// Implements `vintsaky_game_stone_at`.
pub fn stone_at(game: &Game, vertex: u32, colour: &mut u32) -> Result<(), Cause>
    ensures { StoneAtCall game.now vertex colour.old colour.new result }
{
    let point = point_on(game, vertex)?;
    *colour = game.at(point).map_or(0, number_of_colour);
    Ok(())
}

/// Implements `vintsaky_game_chain`.
pub fn chain(game: &Game, vertex: u32, stones: &mut u32, liberties: &mut u32) -> Result<(), Cause>
    ensures { ChainCall game.now vertex stones.old stones.new liberties.old liberties.new result }
{
    let point = point_on(game, vertex)?;
    let chain = game.chain(point).ok_or(Cause::NoStone)?;
    *stones = chain.stones;
    *liberties = chain.liberties;
    Ok(())
}

/// The point of a number, on the board of a game.
pub(crate) fn point_on(game: &Game, vertex: u32) -> Result<Point, Cause>
    ensures on { IfOk result (λ point. IsPointOn game.now vertex point) }
    ensures why { IfErr result (RefusesPointCode game.now vertex) }
{
    let point = point_of(vertex)?;
    if point.on(game.size()) {
        Ok(point)
    } else {
        Err(Cause::OffBoard)
    }
}

/// The point of a number, if a stone is there.
pub(crate) fn stone_on(game: &Game, vertex: u32) -> Result<Point, Cause>
    ensures on { IfOk result (λ point. IsPointOn game.now vertex point) }
    ensures stone { IfOk result (λ point. stone_at (board_of game.now) point ≢ None) }
    ensures why { IfErr result (RefusesChain game.now vertex) }
{
    let point = point_on(game, vertex)?;
    if game.at(point).is_none() {
        return Err(Cause::NoStone);
    }
    Ok(point)
}

/// Implements `vintsaky_game_made`.
pub fn made(game: &Game, number: usize, colour: &mut u32, vertex: &mut u32) -> Result<(), Cause>
    ensures { MadeCall game.now number colour.old colour.new vertex.old vertex.new result }
{
    let made = game.moves().get(number).ok_or(Cause::NoMove)?;
    *colour = number_of_colour(made.colour);
    *vertex = number_of_vertex(made.vertex);
    Ok(())
}

/// Implements `vintsaky_game_captured`.
pub fn captured(game: &Game, colour: u32, stones: &mut u32) -> Result<(), Cause>
    ensures { CapturedCall game.now colour stones.old stones.new result }
{
    *stones = game.captured(colour_of(colour)?);
    Ok(())
}

/// Implements `vintsaky_game_rule`.
pub fn rule(game: &Game) -> u32
    ensures { result ≡ rule_code game.now.rule }
{
    number_of_rule(game.rule())
}

/// Implements `vintsaky_game_board_text`.
pub fn board_text(game: &Game, text: &mut [u8]) -> usize
    ensures { Writes (board_text game.now) text.old text.new result }
{
    put(&game.show(), text)
}
