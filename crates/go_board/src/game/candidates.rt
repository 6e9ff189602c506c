//! Own eyes, and a random move that leaves them alone.
ghost use Rattle.std.specs.Prelude.{◌<◌, ◌↔◌, IsTrue};
ghost use Rattle.go_board.specs.Board.{place_count};
ghost use Rattle.go_board.specs.Candidates.{IsChosen};

use super::{Game, MOST_POINTS};
use crate::board::{ROW, place_of, point_at};
use arrayvec::ArrayVec;
use go_base::{Colour, Point, Vertex};

impl Game {
    ghost use Rattle.go_board.specs.Game.{board_of};
    ghost use Rattle.go_board.specs.Candidates.{IsCandidate, AreCandidates, IsRandomMove};
    ghost use Rattle.go_board.specs.Eye.{IsOwnEye};

    /// Whether a point is an own eye of a colour: an empty point of the board with only stones of that colour beside
    /// it. The other colour may have a stone on at most one of its diagonal neighbours, and on none if the point is on
    /// the edge.
    pub fn is_own_eye(&self, colour: Colour, point: Point) -> bool
        ensures { IsTrue result ↔ IsOwnEye (board_of self.now) colour point }
    {
        self.chains.board().is_own_eye(colour, place_of(point))
    }

    /// The random move that a word chooses for a colour. The candidates are the points where `legal` allows a play and
    /// that aren't own eyes of the colour, in the order A1, B1, .., A2, B2, ... Of n candidates the word chooses number
    /// `word` mod n, counted from 0. If there is none, the move is a pass.
    pub fn random_move(&self, colour: Colour, word: u64) -> Vertex
        ensures { IsRandomMove self.now colour word result }
    {
        let points = self.candidates(colour);
        chosen(points.as_slice(), word)
    }

    /// The candidates of a colour.
    fn candidates(&self, colour: Colour) -> ArrayVec<Point, MOST_POINTS>
        ensures { AreCandidates self.now colour result.items }
    {
        let lines = self.size().get() as usize;
        let mut points = ArrayVec::new();
        for place in ROW..ROW * (lines + 1) {
            if self.is_candidate_at(colour, place) {
                points.push(point_at(place));
            }
        }
        points
    }

    /// Whether a place is a candidate of a colour.
    #[inline]
    fn is_candidate_at(&self, colour: Colour, place: usize) -> bool
        requires { place < place_count }
        ensures { IsTrue result ↔ IsCandidate self.now colour place }
    {
        self.is_legal_at(colour, place) && !self.chains.board().is_own_eye(colour, place)
    }
}

/// Point number `word` mod n of n points, counted from 0, or a pass if there is none.
fn chosen(points: &[Point], word: u64) -> Vertex
    ensures { IsChosen points.now word result }
{
    if points.is_empty() {
        return Vertex::Pass;
    }
    let number = word % points.len() as u64;
    Vertex::At(points[number as usize])
}
