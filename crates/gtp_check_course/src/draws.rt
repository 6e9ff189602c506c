//! The random choices of a step: words of a generator, and moves and points made from them.
ghost use Rattle.std.specs.Prelude.{◌≡◌, ◌≢◌, ◌*◌, ◌<◌, ◌≤◌, ◌%◌, ℕ};
ghost use Rattle.go_base.specs.Point.{IsOn};
ghost use Rattle.go_base.specs.declared.vertices.Vertex.TheVariants.{Pass, At};
ghost use Rattle.go_board.specs.Game.{IsLegal};
ghost use Rattle.gtp_check_course.specs.Draws.{drawn_below, generator_of_step, past_words};
ghost use Rattle.gtp_check_course.specs.Questions.{IsDrawn, IsDrawnMove, IsFirstLegal, IsProbe, IsPointOf};
ghost use Rattle.gtp_check_course.specs.Questions.{drawn_point, point_or_pass};

use crate::actions::Question;
use crate::scenes::crossing;
use crate::stretches::{colour_of, play, probe};
use crate::sweeps::crossing_of;
use go_base::{Colour, Vertex};
use go_board::Game;
use rand_core::SeedableRng;
use rand_core::utils::NextWord;
use rand_pcg::Pcg64;

/// How many words a step may use.
const WORDS: u128 = 128;

/// How many random points are tried before the first legal one is taken.
const TRIES: u32 = 30;

/// The random choices of a step. Each step has words of its own, whatever other lessons the course has.
#[derive(Clone, Copy, Debug, PartialEq, Eq)]
pub struct Draws {
    /// The random seed of the course.
    pub seed: u32,
    /// The number of the step's place among all lessons.
    pub number: u32,
}

impl Draws {
    /// Returns the generator of the words. Making it takes longer than most questions do, and most use no random words.
    pub fn generator(self) -> Pcg64
        ensures { result ≡ generator_of_step self }
    {
        let mut generator = Pcg64::seed_from_u64(u64::from(self.seed));
        generator.advance(u128::from(self.number) * WORDS);
        generator
    }
}

/// A random move, or a probe of a random point. The first word chooses the colour, and those after it the point.
pub(crate) fn probed(step: u32, game: &Game, draws: &mut Pcg64) -> Question
    ensures moves { step % 3 ≡ 0 → IsDrawnMove game.now draws.old result }
    ensures probes { step % 3 ≢ 0 → IsProbe game.now draws.old result }
{
    if step % 3 == 0 {
        return drawn_move(game, draws);
    }
    let colour = colour_of(draw(draws, 2));
    probe(colour, drawn_point(game.size().get(), draws))
}

/// A random legal move, or a pass if the colour has no legal point. The first word chooses the colour.
pub(crate) fn drawn_move(game: &Game, draws: &mut Pcg64) -> Question
    ensures { IsDrawnMove game.now draws.old result }
{
    let colour = colour_of(draw(draws, 2));
    play(colour, legal_vertex(game, colour, draws))
}

/// Returns the first of thirty random points that is legal for the colour. If none is, it returns the first point of
/// the board that is, or a pass if there is none.
fn legal_vertex(game: &Game, colour: Colour, draws: &mut Pcg64) -> Vertex
    ensures { IsDrawn game.now colour draws.old result }
{
    let size = game.size().get();
    for _try in 0..TRIES {
        let column = draw(draws, size) + 1;
        let row = draw(draws, size) + 1;
        if game.legal(colour, crossing(column, row)) {
            return crossing(column, row);
        }
    }
    first_legal(game, colour)
}

/// Returns the first point of the board that is legal for the colour, row by row from the lowest, or a pass if there is
/// none.
fn first_legal(game: &Game, colour: Colour) -> Vertex
    ensures first { IsFirstLegal game.now colour (point_or_pass game.now.size) result }
    ensures passes_last { result ≡ Pass
        → (p : ℕ) → IsOn game.now.size p → IsLegal game.now colour (At p) → ⊥ }
{
    let size = game.size().get();
    for number in 0..size * size {
        if game.legal(colour, crossing_of(number, size)) {
            return crossing_of(number, size);
        }
    }
    Vertex::Pass
}

/// Returns a random point of a board of this size: the next word chooses its column, and the one after it its row.
fn drawn_point(size: u32, draws: &mut Pcg64) -> Vertex
    requires least { 0 < size }
    requires most { size ≤ 25 }
    ensures point { IsPointOf size result }
    ensures drawn { result ≡ drawn_point draws.old 0 size }
    ensures rest { draws.new ≡ past_words 2 draws.old }
{
    let column = draw(draws, size) + 1;
    let row = draw(draws, size) + 1;
    crossing(column, row)
}

/// Returns a random number below this limit: the remainder of the next word.
fn draw(draws: &mut Pcg64, limit: u32) -> u32
    requires least { 0 < limit }
    requires most { limit ≤ 25 }
    ensures below { result < limit }
    ensures drawn { result ≡ drawn_below draws.old 0 limit }
    ensures rest { draws.new ≡ past_words 1 draws.old }
{
    (draws.next_word() % u64::from(limit)) as u32
}
