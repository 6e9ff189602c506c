//! Stretches of a lesson, and what each step of them asks.
ghost use Rattle.std.specs.Prelude.{◌≡◌, ◌≢◌, ◌<◌, ◌≤◌, ◌/◌, ◌%◌, ◌==◌, length, slice_get, if◌then◌else◌};
ghost use Rattle.gtp_wire.specs.declared.commands.Command.TheVariants as command;
ghost use Rattle.gtp_check_course.specs.Questions.{asks, plays, probes, colour_of, act_asked, last_of, pass_asked};
ghost use Rattle.gtp_check_course.specs.Questions.{elsewhere_asked, own_asked, corner_asked, edge_point};
ghost use Rattle.gtp_check_course.specs.Questions.{genmove_asked, choice_asked, seek_asked};
ghost use Rattle.gtp_check_course.specs.Questions.{is_gap, filled_act, gap_act, swept_act};
ghost use Rattle.gtp_check_course.specs.Questions.{star_points, star_asked, IsQuestion};
ghost use Rattle.gtp_check_course.specs.Places.{most_steps};
ghost use Rattle.gtp_check_course.specs.Stretches.{steps_of};

use crate::actions::Question;
use crate::beside::{around_move, on_move, surround};
use crate::boards::Board;
use crate::draws::{Draws, drawn_move, probed};
use crate::kos::{actor_pass, answer, sealed};
use crate::scenes::crossing;
use crate::spellings::{choose_in_full, play_in_full};
use crate::sweeps::{all_back, emptied, points, waits};
use arrayvec::ArrayVec;
use go_base::{Colour, Move, Point, Size, Vertex, handicap};
use go_board::Game;
use gtp_check_judge::{CheckCommand, FaultyCommand, RequiredCommand};
use gtp_wire::Command;

/// The number of the move whose stone is captured in the first scene of kos.
const RETAKEN: usize = 2;

/// The smallest size of a scene's board, and how many sizes there are from it on.
const LEAST_SIZE: u32 = 5;

const SIZES_OF_SCENES: u32 = 21;

const MOST_SIZE: u32 = 25;

/// The lines of a scene's corner.
const LINES: u32 = 6;

/// Steps of one kind, one after the other.
#[derive(Clone, Copy, Debug, PartialEq, Eq)]
pub enum Stretch {
    /// A restart after a `quit`, where a lesson begins after another one.
    Fresh,
    /// As long as no size of scenes is known, `boardsize` with each size from 5, until one is accepted.
    Seek,
    /// `boardsize`, with the part's size.
    Size,
    /// Leaves the part if the size was refused.
    Taken,
    /// `boardsize`, with the other size.
    OtherSize,
    /// Leaves the part if the other size was refused.
    OtherTaken,
    /// `komi`, with the part's komi.
    Komi,
    /// `komi`, with the other one.
    OtherKomi,
    /// `komi`, with one that no float of 32 bits represents: the engine may accept, round or refuse it. The game stays
    /// as it is. (The standard's topics float and komi. A match has such a komi only if its organiser asks for it.)
    Inexact,
    /// `clear_board`.
    Clear,
    /// `fixed_handicap` with two stones, if the games of the scene begin with it.
    Given,
    /// The moves of the scene.
    Moves,
    /// The moves of the scene, with their colours written in full. (The standard's topic color: it is one of white, w,
    /// black and b. The tournament writes one letter, so a bug can't spoil a match of it.)
    MovesInFull,
    /// Probes of the points of the scene's moves, in both colours.
    Own,
    /// Probes of the points of the scene's corner, in both colours.
    Corner,
    /// A pass of the colour that didn't act.
    Pass,
    /// A pass of the colour that acted. After the capture of a ko it ends the ko by itself. (The rules of play, topic
    /// ko. A bug spoils a match.)
    ActorPass,
    /// The act, which is the last move of the scene.
    Act,
    /// A move of the colour that didn't act, in the far corner.
    Elsewhere,
    /// `undo`.
    Undo,
    /// Probes of the corners, and of two points next to them that the board doesn't have.
    Edges,
    /// `fixed_handicap`.
    Handicap,
    /// `fixed_handicap`, with this many stones.
    Stones(u32),
    /// Probes of the points of handicaps, in both colours.
    Stars,
    /// `final_score`.
    Score,
    /// White's moves around the first point of a handicap, which capture a stone there.
    Surround,
    /// A move on each point of the board, a probe of that point by the other colour, and an `undo`.
    Points,
    /// This many passes, by Black and White in turn.
    Passes(u32),
    /// This many steps: passes, and after each a probe of the point where the first of all kos may be retaken.
    Waits(u32),
    /// This many random moves.
    Drawn(u32),
    /// This many steps, of which each third is a random move, and the others are probes of random points.
    Probed(u32),
    /// This many times `undo`.
    Back(u32),
    /// This many steps, each an `undo` as long as the game has moves.
    Emptied(u32),
    /// The same in the first of the sixteen ways alone, and nothing in the others. (An engine may keep only a part of
    /// the history. So the reply to an `undo` after one that succeeded has to be awaited, which takes long.)
    AllBack(u32),
    /// This many steps, of which each fifth is an `undo`, and the others are moves of the engine's own. Of four of
    /// these, three are for the colour whose turn it is.
    Genmoves(u32),
    /// A stone of White in the corner, and Black's on all points except three.
    Filled,
    /// Black's moves on those three points.
    Gaps,
    /// Moves after which White captures all stones of Black with one.
    Swept,
    /// A move of the engine's own, for the colour that plays this one's moves.
    Chosen(Colour),
    /// A move on the point of the game's move of this number, counted from 0, in each colour.
    OnMove(usize),
    /// Moves next to that point, of the colour that didn't play there.
    AroundMove(usize),
    /// The same, with the colour written in full.
    ChosenInFull(Colour),
    /// `list_commands`. (The standard's topic list_commands: it lists all known commands, one a row, and each engine
    /// has eleven of them. The tournament doesn't ask it, so a bug can't spoil a match.)
    List,
    /// A command that has to fail.
    Faulty(FaultyCommand),
    /// A command that may not fail.
    Required(RequiredCommand),
    /// Moves of the colour that acts, which fill the board beside a ko, so that hardly a point is legal for the other
    /// colour.
    Sealed,
    /// A move of the engine's own, for the colour that didn't act: it may not retake a ko. (The standard's topic
    /// genmove, and the rules of play, topic ko. A bug spoils a match.)
    Answer,
    /// A restart after a `quit`.
    Restart,
    /// A restart without a `quit`.
    Kill,
}

impl Stretch {
    /// Returns how many steps it has.
    pub fn steps(self) -> u32
        ensures steps { result ≡ steps_of self }
        ensures few { result ≤ most_steps }
    {
        match self {
            Stretch::Fresh
            | Stretch::Size
            | Stretch::Taken
            | Stretch::OtherSize
            | Stretch::OtherTaken
            | Stretch::Komi
            | Stretch::OtherKomi
            | Stretch::Inexact
            | Stretch::Clear
            | Stretch::Given
            | Stretch::Pass
            | Stretch::ActorPass
            | Stretch::Act
            | Stretch::Elsewhere
            | Stretch::Undo
            | Stretch::Handicap
            | Stretch::Stones(_)
            | Stretch::Score
            | Stretch::Chosen(_)
            | Stretch::ChosenInFull(_)
            | Stretch::List
            | Stretch::Faulty(_)
            | Stretch::Required(_)
            | Stretch::Answer
            | Stretch::Restart
            | Stretch::Kill => 1,
            Stretch::Seek => 2 * SIZES_OF_SCENES,
            Stretch::Moves | Stretch::MovesInFull => 12,
            Stretch::Own => 24,
            Stretch::Corner => 2 * LINES * LINES,
            Stretch::Edges => 6,
            Stretch::Stars => 18,
            Stretch::OnMove(_) => 2,
            Stretch::Surround | Stretch::AroundMove(_) | Stretch::Swept => 4,
            Stretch::Filled | Stretch::Sealed => 625,
            Stretch::Gaps => 3,
            Stretch::Points => 1875,
            Stretch::Passes(steps)
            | Stretch::Waits(steps)
            | Stretch::Drawn(steps)
            | Stretch::Probed(steps)
            | Stretch::Back(steps)
            | Stretch::Emptied(steps)
            | Stretch::AllBack(steps)
            | Stretch::Genmoves(steps) => steps.min(2000),
        }
    }

    /// Returns what its step of this number asks in this game.
    pub fn question(self, step: u32, board: &Board, game: &Game, draws: Draws) -> Question
        ensures { IsQuestion self (record { number = step; draws = draws })
            board.now game.now result }
    {
        match self {
            Stretch::Fresh => Question::Fresh,
            Stretch::Seek => seek(step, board.is_sought),
            Stretch::Size => ask(Command::Boardsize(board.size)),
            Stretch::Taken => Question::Size(board.size),
            Stretch::OtherSize => ask(Command::Boardsize(board.other_size)),
            Stretch::OtherTaken => Question::Size(board.other_size),
            Stretch::Komi => ask(Command::Komi(board.komi)),
            Stretch::OtherKomi => ask(Command::Komi(board.other_komi)),
            Stretch::Inexact => ask(Command::Komi(board.inexact_komi)),
            Stretch::Clear => ask(Command::ClearBoard),
            Stretch::Given if board.has_handicap => ask(Command::FixedHandicap(2)),
            Stretch::Given => Question::Nothing,
            Stretch::Undo | Stretch::Back(_) => ask(Command::Undo),
            Stretch::Handicap => ask(Command::FixedHandicap(board.stones)),
            Stretch::Stones(stones) => ask(Command::FixedHandicap(stones)),
            Stretch::Score => Question::Ask(CheckCommand::FinalScore),
            Stretch::Restart => Question::Restart,
            Stretch::Kill => Question::Kill,
            Stretch::Chosen(colour) => ask(Command::Genmove(board.way.colour(colour))),
            Stretch::ChosenInFull(colour) => choose_in_full(colour, board),
            Stretch::OnMove(number) => on_move(step, game.moves().get(number).copied()),
            Stretch::AroundMove(number) => around_move(step, game.moves().get(number).copied()),
            Stretch::List => Question::Ask(CheckCommand::ListCommands),
            Stretch::Faulty(command) => Question::Ask(CheckCommand::Faulty(command)),
            Stretch::Required(command) => Question::Ask(CheckCommand::Required(command)),
            Stretch::Moves => play_act(act_of(step as usize, board), board),
            Stretch::MovesInFull => play_in_full(act_of(step as usize, board), board),
            Stretch::Act => play_act(last_of(board), board),
            Stretch::Filled => play_act(filled_act(step, board.size.get()), board),
            Stretch::Gaps => play_act(Some(gap_act(step, board.size.get())), board),
            Stretch::Swept => play_act(Some(swept_act(step, board.size.get())), board),
            Stretch::Pass => pass_after(last_of(board), board),
            Stretch::ActorPass => actor_pass(last_of(board), board),
            Stretch::Sealed => sealed(step, last_of(board), board),
            Stretch::Answer => answer(last_of(board), board),
            Stretch::Elsewhere => elsewhere(last_of(board), board),
            Stretch::Own => own_point(step, board),
            Stretch::Corner => corner_point(step, board),
            Stretch::Edges => edge_point(step, board.size.get()),
            Stretch::Stars => star(step, game.size()),
            Stretch::Surround => surround(step, star_point(0, game.size())),
            Stretch::Points => points(step, board.size.get()),
            Stretch::Waits(_) => waits(step, act_of(RETAKEN, board), board),
            Stretch::Emptied(_) => emptied(game),
            Stretch::AllBack(_) => all_back(board.way, game),
            Stretch::Passes(_) => play(colour_of(step), Vertex::Pass),
            Stretch::Drawn(_) => drawn_move(game, &mut draws.generator()),
            Stretch::Probed(_) => probed(step, game, &mut draws.generator()),
            Stretch::Genmoves(_) => genmove(step, game),
        }
    }
}

/// Asks for a size of scenes, in two steps for each: `boardsize`, and then whether it was accepted.
fn seek(step: u32, is_sought: bool) -> Question
    ensures { result ≡ seek_asked step is_sought }
{
    let Some(size) = Size::new((LEAST_SIZE + step / 2).min(MOST_SIZE)) else {
        unreachable!()
    };
    if !is_sought {
        Question::Nothing
    } else if step % 2 == 0 {
        ask(Command::Boardsize(size))
    } else {
        Question::Found(size)
    }
}

/// Returns the move of this number of the scene, if it has one.
fn act_of(number: usize, board: &Board) -> Option<(Colour, u32, u32)>
    ensures { result ≡ slice_get board.now.scene.now number }
{
    board.scene.get(number).copied()
}

/// Returns the last move of the scene.
fn last_of(board: &Board) -> Option<(Colour, u32, u32)>
    ensures { result ≡ last_of board.now.scene.now }
{
    act_of(board.scene.len().saturating_sub(1), board)
}

/// A move of the scene, if there is one.
pub(crate) fn play_act(act: Option<(Colour, u32, u32)>, board: &Board) -> Question
    ensures { result ≡ act_asked board.now act }
{
    match act {
        Some(act) => ask(Command::Play(board.way.act(act, board.size))),
        None => Question::Nothing,
    }
}

/// A pass of the colour that didn't act.
fn pass_after(act: Option<(Colour, u32, u32)>, board: &Board) -> Question
    ensures { result ≡ pass_asked board.now act }
{
    match act {
        Some(act) => play(board.way.act(act, board.size).colour.other(), Vertex::Pass),
        None => Question::Nothing,
    }
}

/// A move of the colour that didn't act, in the far corner.
fn elsewhere(act: Option<(Colour, u32, u32)>, board: &Board) -> Question
    ensures { result ≡ elsewhere_asked board.now act }
{
    let far = board.size.get();
    match act {
        Some(act) => play(
            board.way.act(act, board.size).colour.other(),
            board.way.turn(far, far, board.size),
        ),
        None => Question::Nothing,
    }
}

/// A command of a match.
pub(crate) fn ask(command: Command) -> Question
    ensures { result ≡ asks command }
{
    Question::Ask(CheckCommand::Match(command))
}

/// A `play`.
pub(crate) fn play(colour: Colour, vertex: Vertex) -> Question
    ensures { result ≡ plays colour vertex }
{
    ask(Command::Play(Move { colour, vertex }))
}

/// A probe of a point, if there is one.
pub(crate) fn probe(colour: Colour, vertex: Vertex) -> Question
    ensures { result ≡ probes colour vertex }
{
    match vertex {
        Vertex::At(_) => Question::Probe(Move { colour, vertex }),
        Vertex::Pass => Question::Nothing,
    }
}

/// Black for an even number, and White for an odd one.
pub(crate) fn colour_of(number: u32) -> Colour
    ensures { result ≡ colour_of number }
{
    if number % 2 == 0 {
        Colour::Black
    } else {
        Colour::White
    }
}

/// A probe of the point of a move of the scene, first in one colour and then in the other.
fn own_point(step: u32, board: &Board) -> Question
    ensures { result
        ≡ own_asked board.now step (slice_get board.now.scene.now (step / 2)) }
{
    match board.scene.get((step / 2) as usize) {
        Some((_, column, row)) => {
            let vertex = board.way.turn(*column, *row, board.size);
            probe(colour_of(step), vertex)
        }
        None => Question::Nothing,
    }
}

/// A probe of a point of the scene's corner, first in one colour and then in the other.
fn corner_point(step: u32, board: &Board) -> Question
    ensures { result ≡ corner_asked board.now step }
{
    let size = board.size.get();
    let column = step / 2 % LINES + 1;
    let row = step / 2 / LINES + 1;
    if column > size || row > size {
        return Question::Nothing;
    }
    probe(colour_of(step), board.way.turn(column, row, board.size))
}

/// A probe of a corner, or of a point next to one that the board doesn't have.
fn edge_point(step: u32, size: u32) -> Question
    requires { size ≤ 25 }
    ensures { result ≡ probes (colour_of step) (edge_point step size) }
{
    let past = size + 1;
    let vertex = match step {
        0 => crossing(size, size),
        1 => crossing(past, 1),
        2 => crossing(1, past),
        3 => crossing(size, 1),
        4 => crossing(1, size),
        _ => crossing(1, 1),
    };
    probe(colour_of(step), vertex)
}

/// A probe of a point of a handicap of this size, first in one colour and then in the other.
fn star(step: u32, size: Size) -> Question
    ensures { result ≡ star_asked step (slice_get (star_points size) (step / 2)) }
{
    match star_point(step / 2, size) {
        Some(point) => probe(colour_of(step), Vertex::At(point)),
        None => Question::Nothing,
    }
}

/// Returns the point of this number among those of the most handicap stones that this size allows.
fn star_point(number: u32, size: Size) -> Option<Point>
    ensures { result ≡ slice_get (star_points size) number }
{
    star_points(size).get(number as usize).copied()
}

/// Returns the points of the most handicap stones that this size allows.
fn star_points(size: Size) -> ArrayVec<Point, 9>
    ensures { result.items ≡ star_points size }
{
    let most = if size.get() >= 9 && size.get() % 2 == 1 {
        handicap(size, 9)
    } else if size.get() >= 7 {
        handicap(size, 4)
    } else {
        None
    };
    most.unwrap_or_default()
}

/// A `genmove` of the colour whose turn it is, or of the other one, or an `undo`.
fn genmove(step: u32, game: &Game) -> Question
    ensures { result ≡ genmove_asked step (length game.now.moves) }
{
    let moves = game.moves().len() as u32;
    match step % 5 {
        4 => ask(Command::Undo),
        2 => ask(Command::Genmove(colour_of(moves).other())),
        _ => ask(Command::Genmove(colour_of(moves))),
    }
}

/// Returns the move of this number on a board that is filled, if it has one.
fn filled_act(step: u32, size: u32) -> Option<(Colour, u32, u32)>
    requires { 0 < size }
    ensures { result ≡ filled_act step size }
{
    let column = step % size + 1;
    let row = step / size;
    if row >= size || is_gap(column, row + 1, size) {
        return None;
    }
    if step == 0 {
        Some((Colour::White, 1, 1))
    } else {
        Some((Colour::Black, column, row + 1))
    }
}

/// Returns whether a point is left empty when the others are filled.
fn is_gap(column: u32, row: u32, size: u32) -> bool
    ensures { result ≡ is_gap column row size }
{
    (column == 2 && row == 1) || (column == size && row == size) || (column == 1 && row == size)
}

/// Black's move on one of the points that are left empty.
fn gap_act(step: u32, size: u32) -> (Colour, u32, u32)
    ensures { result ≡ gap_act step size }
{
    match step {
        0 => (Colour::Black, 2, 1),
        1 => (Colour::Black, size, size),
        _ => (Colour::Black, 1, size),
    }
}

/// One of the moves after which White captures all stones of Black.
fn swept_act(step: u32, size: u32) -> (Colour, u32, u32)
    ensures { result ≡ swept_act step size }
{
    match step {
        0 => (Colour::Black, 2, 1),
        1 => (Colour::Black, 1, 1),
        2 => (Colour::Black, size, size),
        _ => (Colour::White, 1, size),
    }
}
