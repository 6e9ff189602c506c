//! What the calls over many games do to each game.
ghost use Rattle.std.specs.Prelude.{◌≡◌, ℕ, ◌+◌, ◌*◌, ◌<◌, [], length, map, replicate, IsTrue, IfOk, IfErr};
ghost use Rattle.vintsaky_calls.specs.Batches.{PlayNumberCall, PlaysNumber, IsMoveNumber, TellsOver, Restarts};
ghost use Rattle.vintsaky_calls.specs.Batches.{IsShown, ScoresInTurn, shown_count, ArePlanes, ArePlanesOf, AreStonePlanes, IsMask};
ghost use Rattle.vintsaky_calls.specs.private.Marks.{stone_mark, bool_mark};
ghost use Rattle.vintsaky_calls.specs.declared.causes.Cause.TheVariants as cause;

use crate::causes::{Cause, byte_of, cause_of_play};
use crate::turns::turn_of;
use arrayvec::ArrayVec;
use go_base::{Colour, Vertex};
use go_board::{Game, MOST_MOVES};

/// What is shown of a game.
#[derive(Clone, Copy, Drop)]
pub enum Shown {
    /// The planes of its board, and of this many earlier ones.
    Planes(u32),
    /// Which moves are legal.
    Mask,
}

/// What is reported of a game that may be over.
#[derive(Clone, Copy, Drop)]
pub struct Outcome {
    /// Whether it is over, and how.
    pub over: u8,
    /// Its score, if it is over.
    pub half_points: i32,
}

// ---- moves

/// Plays the move of a number for the colour whose turn it is. Returns the number of the result.
pub fn play(game: &mut Game, number: u32) -> u8
    ensures { PlaysNumber game.old number game.new result }
{
    byte_of(play_number(game, number))
}

/// Plays the move of a number for the colour whose turn it is.
fn play_number(game: &mut Game, number: u32) -> Result<(), Cause>
    ensures { PlayNumberCall game.old number game.new result }
{
    let vertex = vertex_of_move(game, number)?;
    let colour = turn_of(game);
    game.play(colour, vertex).map_err(cause_of_play)
}

/// The vertex of a move's number.
fn vertex_of_move(game: &Game, number: u32) -> Result<Vertex, Cause>
    ensures some { IfOk result (IsMoveNumber game.now.size number) }
    ensures none { IfErr result
        (λ why. (why ≡ cause.OffBoard) × (game.now.size * game.now.size < number)) }
{
    let size = game.size().get();
    if number == size * size {
        return Ok(Vertex::Pass);
    }
    let point = game.point(number as usize).ok_or(Cause::OffBoard)?;
    Ok(Vertex::At(point))
}

// ---- games that are over

/// Restarts a game that is over. Returns what is reported of it before.
pub fn restart(game: &mut Game, limit: u32) -> Outcome
    ensures { Restarts limit game.old result.over game.new result.half_points }
{
    let over = over_of(game, limit);
    if over == 0 {
        return Outcome {
            over,
            half_points: 0,
        };
    }
    let half_points = game.score();
    begin_anew(game);
    Outcome { over, half_points }
}

/// Whether a game is over: 1 after two passes, 2 if it has at least this many moves or is full, else 0.
fn over_of(game: &Game, limit: u32) -> u8
    ensures { TellsOver game.now limit result }
{
    let count = game.moves().len();
    if game.finished() {
        1
    } else if count >= limit as usize || count >= MOST_MOVES {
        2
    } else {
        0
    }
}

/// Undoes all moves.
fn begin_anew(game: &mut Game)
    ensures { game.new ≡ record game.old { moves = [] } }
{
    // A mere check: the size allows the handicap.
    let _ = game.size();
    let handicap = game.handicap();
    game.clear();
    // The board is empty, so that all stones are placed again.
    if handicap != 0 {
        let _ = game.place_handicap(handicap);
    }
}

// ---- what is shown

/// How many values are shown of a game.
pub fn count(shown: Shown, game: &Game) -> usize
    ensures { result ≡ shown_count shown game.now }
{
    let size = game.size().get() as usize;
    match shown {
        Shown::Planes(earlier) => (1 + earlier as usize) * (2 * (size * size)),
        Shown::Mask => size * size + 1,
    }
}

/// Writes what is shown of a game, with these values for no and for yes.
pub fn show<T: Copy>(shown: Shown, game: &Game, zero: T, one: T, values: &mut [T])
    requires { length values.old ≡ shown_count shown game.now }
    ensures { IsShown zero one shown game.now values.new }
{
    match shown {
        Shown::Planes(earlier) => put_planes(game, earlier, zero, one, values),
        Shown::Mask => put_mask(game, zero, one, values),
    }
}

/// Writes the planes of a game's board, and of this many earlier ones.
fn put_planes<T: Copy>(game: &Game, earlier: u32, zero: T, one: T, values: &mut [T])
    requires { length values.old ≡ (1 + earlier) * (2 * (game.now.size * game.now.size)) }
    ensures { ArePlanes zero one earlier game.now values.new }
{
    let colour = turn_of(game);
    if earlier == 0 {
        put_stone_planes(game, colour, zero, one, values);
    } else {
        put_earlier_planes(game, colour, earlier, zero, one, values);
    }
}

/// Writes the planes of a game's board, and of this many earlier ones, for a colour.
fn put_earlier_planes<T: Copy>(
    game: &Game,
    colour: Colour,
    earlier: u32,
    zero: T,
    one: T,
    values: &mut [T],
)
    requires { length values.old ≡ (1 + earlier) * (2 * (game.now.size * game.now.size)) }
    ensures { ArePlanesOf zero one game.now colour (1 + earlier) values.new }
{
    let size = game.size().get() as usize;
    let count = 2 * (size * size);
    let moves = game.moves().len();
    let mut before = game.copied();
    for ago in 0..1 + earlier as usize {
        let planes = &mut values[ago * count..ago * count + count];
        put_board(&before, ago <= moves, colour, zero, one, planes);
        // Where there is no move left, none is undone.
        let _ = before.undo();
    }
}

/// Writes the planes of a board, or empty ones if there is no such board.
fn put_board<T: Copy>(
    game: &Game,
    is_there: bool,
    colour: Colour,
    zero: T,
    one: T,
    values: &mut [T],
)
    requires { length values.old ≡ 2 * (game.now.size * game.now.size) }
    ensures there { IsTrue is_there → AreStonePlanes zero one game.now colour values.new }
    ensures empty { ¬ IsTrue is_there
        → values.new ≡ replicate (2 * (game.now.size * game.now.size)) zero }
{
    if is_there {
        put_stone_planes(game, colour, zero, one, values);
    } else {
        put_zeros(zero, values);
    }
}

/// Writes the same value everywhere.
fn put_zeros<T: Copy>(zero: T, values: &mut [T])
    ensures { values.new ≡ replicate (length values.old) zero }
{
    for value in values.iter_mut() {
        *value = zero;
    }
}

/// Writes the planes of one board: the stones of a colour, and those of the other.
fn put_stone_planes<T: Copy>(game: &Game, colour: Colour, zero: T, one: T, values: &mut [T])
    requires { length values.old ≡ 2 * (game.now.size * game.now.size) }
    ensures { AreStonePlanes zero one game.now colour values.new }
{
    let mut stones = ArrayVec::new();
    game.board_into(&mut stones);
    let (own, others) = values.split_at_mut(stones.len());
    put_plane(&stones, colour, zero, one, own);
    put_plane(&stones, colour.other(), zero, one, others);
}

/// Writes for each point whether a stone of the colour is there.
fn put_plane<T: Copy>(stones: &[Option<Colour>], colour: Colour, zero: T, one: T, values: &mut [T])
    requires { length values.old ≡ length stones.now }
    ensures { values.new ≡ map (stone_mark zero one colour) stones.now }
{
    for (place, stone) in stones.iter().enumerate() {
        values[place] = mark_of_stone(*stone, colour, zero, one);
    }
}

/// The value that is written for a point.
fn mark_of_stone<T: Copy>(stone: Option<Colour>, colour: Colour, zero: T, one: T) -> T
    ensures { result ≡ stone_mark zero one colour stone }
{
    match (stone, colour) {
        (Some(Colour::Black), Colour::Black) => one,
        (Some(Colour::White), Colour::White) => one,
        _ => zero,
    }
}

/// Writes for the move of each number whether it is legal for the colour whose turn it is.
fn put_mask<T: Copy>(game: &Game, zero: T, one: T, values: &mut [T])
    requires { length values.old ≡ game.now.size * game.now.size + 1 }
    ensures { IsMask zero one game.now values.new }
{
    let mut marks = ArrayVec::new();
    game.legal_mask_into(turn_of(game), &mut marks);
    let count = marks.len();
    put_marks(&marks, zero, one, &mut values[..count]);
    values[count] = one;
}

/// Writes a value for each mark.
fn put_marks<T: Copy>(marks: &[bool], zero: T, one: T, values: &mut [T])
    requires { length values.old ≡ length marks.now }
    ensures { values.new ≡ map (bool_mark zero one) marks.now }
{
    for (place, mark) in marks.iter().enumerate() {
        values[place] = if *mark { one } else { zero };
    }
}

// ---- rollouts

/// The score of a rollout by a seed, in which the colour whose turn it is moves first.
pub fn rollout(game: &Game, seed: u64, limit: u32) -> i32
    ensures { ScoresInTurn game.now seed limit result }
{
    go_playouts::rollout(game, turn_of(game), seed, limit)
}
