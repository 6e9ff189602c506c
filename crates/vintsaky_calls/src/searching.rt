//! The calls by which a search looks at a game, and playouts.
ghost use Rattle.std.specs.Prelude.{◌≡◌, map};
ghost use Rattle.vintsaky_calls.specs.Searching.{IndexCall, PointAtCall, ListsBoard, LegalMaskCall, IsOwnEyeCall};
ghost use Rattle.vintsaky_calls.specs.Searching.{ChainPointsCall, ChainLibertiesCall, KoPointCall, RandomMoveCall};
ghost use Rattle.vintsaky_calls.specs.Searching.{PutsBytes, maybe_point_code, PositionHashCall, PlayoutCall, RolloutCall};
ghost use Rattle.vintsaky_calls.specs.Games.{stone_code};
ghost use Rattle.vintsaky_calls.specs.Matches.{bool_code};

use crate::causes::Cause;
use crate::codes::{colour_of, number_of_point, number_of_vertex};
use crate::games::{point_on, put_points, stone_on};
use arrayvec::ArrayVec;
use go_base::{Colour, Point};
use go_board::{Game, MOST_POINTS};

/// Implements `vintsaky_game_index`.
pub fn index(game: &Game, vertex: u32, index: &mut usize) -> Result<(), Cause>
    ensures { IndexCall game.now vertex index.old index.new result }
{
    let point = point_on(game, vertex)?;
    *index = game.index(point).ok_or(Cause::OffBoard)?;
    Ok(())
}

/// Implements `vintsaky_game_point_at`.
pub fn point_at(game: &Game, index: usize, vertex: &mut u32) -> Result<(), Cause>
    ensures { PointAtCall game.now index vertex.old vertex.new result }
{
    let point = game.point(index).ok_or(Cause::OffBoard)?;
    *vertex = number_of_point(point);
    Ok(())
}

/// Implements `vintsaky_game_board`.
pub fn board(game: &Game, bytes: &mut [u8]) -> usize
    ensures { ListsBoard game.now bytes.old bytes.new result }
{
    let mut stones = ArrayVec::new();
    game.board_into(&mut stones);
    put_stones(&stones, bytes)
}

/// Writes the byte of each stone, if the buffer holds all of them. Returns how many there are.
fn put_stones(stones: &ArrayVec<Option<Colour>, MOST_POINTS>, bytes: &mut [u8]) -> usize
    ensures { PutsBytes (map stone_code stones.now.items) bytes.old bytes.new result }
{
    let count = stones.len();
    if count <= bytes.len() {
        for (place, stone) in stones.as_slice().iter().enumerate() {
            bytes[place] = byte_of_stone(*stone);
        }
    }
    count
}

/// The byte of a stone, or of an empty point.
fn byte_of_stone(stone: Option<Colour>) -> u8
    ensures { result ≡ stone_code stone }
{
    match stone {
        None => 0,
        Some(Colour::Black) => 1,
        Some(Colour::White) => 2,
    }
}

/// Implements `vintsaky_game_legal_mask`.
pub fn legal_mask(
    game: &Game,
    colour: u32,
    bytes: &mut [u8],
    count: &mut usize,
) -> Result<(), Cause>
    ensures { LegalMaskCall game.now colour bytes.old bytes.new count.old count.new result }
{
    let colour = colour_of(colour)?;
    let mut marks = ArrayVec::new();
    game.legal_mask_into(colour, &mut marks);
    *count = put_marks(&marks, bytes);
    Ok(())
}

/// Writes a byte for each mark, if the buffer holds all of them. Returns how many there are.
fn put_marks(marks: &ArrayVec<bool, MOST_POINTS>, bytes: &mut [u8]) -> usize
    ensures { PutsBytes (map bool_code marks.now.items) bytes.old bytes.new result }
{
    let count = marks.len();
    if count <= bytes.len() {
        for (place, mark) in marks.as_slice().iter().enumerate() {
            bytes[place] = if *mark { 1 } else { 0 };
        }
    }
    count
}

/// Implements `vintsaky_game_is_own_eye`.
pub fn is_own_eye(game: &Game, colour: u32, vertex: u32, holds: &mut u32) -> Result<(), Cause>
    ensures { IsOwnEyeCall game.now colour vertex holds.old holds.new result }
{
    let colour = colour_of(colour)?;
    let point = point_on(game, vertex)?;
    *holds = if game.is_own_eye(colour, point) { 1 } else { 0 };
    Ok(())
}

/// Implements `vintsaky_game_chain_points`.
pub fn chain_points(
    game: &Game,
    vertex: u32,
    points: &mut [u32],
    count: &mut usize,
) -> Result<(), Cause>
    ensures { ChainPointsCall game.now vertex points.old points.new count.old count.new result }
{
    let stone = stone_on(game, vertex)?;
    let mut stones = ArrayVec::new();
    game.chain_points_into(stone, &mut stones);
    *count = put_points(&stones, points);
    Ok(())
}

/// Implements `vintsaky_game_chain_liberties`.
pub fn chain_liberties(
    game: &Game,
    vertex: u32,
    points: &mut [u32],
    count: &mut usize,
) -> Result<(), Cause>
    ensures { ChainLibertiesCall game.now vertex points.old points.new count.old count.new result }
{
    let stone = stone_on(game, vertex)?;
    let mut liberties = ArrayVec::new();
    game.chain_liberties_into(stone, &mut liberties);
    *count = put_points(&liberties, points);
    Ok(())
}

/// Implements `vintsaky_game_ko_point`.
pub fn ko_point(game: &Game, colour: u32, vertex: &mut u32) -> Result<(), Cause>
    ensures { KoPointCall game.now colour vertex.old vertex.new result }
{
    let colour = colour_of(colour)?;
    *vertex = number_of_maybe(game.ko_point(colour));
    Ok(())
}

/// The number of a point, or 0, as for a pass, if there is none.
fn number_of_maybe(point: Option<Point>) -> u32
    ensures { result ≡ maybe_point_code point }
{
    match point {
        None => 0,
        Some(point) => number_of_point(point),
    }
}

/// Implements `vintsaky_game_random_move`.
pub fn random_move(game: &Game, colour: u32, word: u64, vertex: &mut u32) -> Result<(), Cause>
    ensures { RandomMoveCall game.now colour word vertex.old vertex.new result }
{
    let colour = colour_of(colour)?;
    *vertex = number_of_vertex(game.random_move(colour, word));
    Ok(())
}

/// Implements `vintsaky_game_position_hash`.
pub fn position_hash(game: &Game, colour: u32, hash: &mut u64) -> Result<(), Cause>
    ensures { PositionHashCall game.now colour hash.old hash.new result }
{
    let colour = colour_of(colour)?;
    *hash = game.position_hash(colour);
    Ok(())
}

/// Implements `vintsaky_game_playout`.
pub fn playout(game: &mut Game, colour: u32, seed: u64, limit: u32) -> Result<(), Cause>
    ensures { PlayoutCall colour seed limit game.old game.new result }
{
    let colour = colour_of(colour)?;
    go_playouts::playout(game, colour, seed, limit);
    Ok(())
}

/// Implements `vintsaky_game_rollout`.
pub fn rollout(
    game: &Game,
    colour: u32,
    seed: u64,
    limit: u32,
    half_points: &mut i32,
) -> Result<(), Cause>
    ensures { RolloutCall game.now colour seed limit half_points.old half_points.new result }
{
    let colour = colour_of(colour)?;
    *half_points = go_playouts::rollout(game, colour, seed, limit);
    Ok(())
}
