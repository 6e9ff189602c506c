//! Laws of the game: which board a move leaves, what it captures, and what counts for whom.
//!
//! The body of each function is empty: the law is its contract, and it is proved.
ghost use Rattle.go_board.specs.Laws.{FirstBoardsAreJustThese, BoardsLeftAreJustThese, StonesAreOnTheBoard};
ghost use Rattle.go_board.specs.Laws.{PositionalIsStricter, NewBoardsAreAllowed, NoBoardComesBack};
ghost use Rattle.go_board.specs.Laws.{NoBoardComesBackAtOnce, OtherPlaysAreLegal, JoinedPointsAreTheSmallestSet};
ghost use Rattle.go_board.specs.Laws.{UntouchedIsAway, CapturedStonesAreShutIn, NoneIsTakenFirst, MovesAddWhatTheyTake};
ghost use Rattle.go_board.specs.Laws.{ScoresAreThese};
ghost use Rattle.go_board.specs.HashLaws.{EqualBoardsHaveOneHash, EqualPositionsHaveOneHash};
ghost use Rattle.go_board.specs.HashLaws.{EmptyBoardsHaveTheirOwnHash};
ghost use Rattle.go_board.specs.Candidates.{CandidatesAreChosenEvenly};
ghost use Rattle.go_board.specs.Index.{IndexesAreOfOnePoint, IndexesAreThose};

pub mod playouts;

/// A game without moves has exactly one board: Black's stones on the points of the handicap, all other points empty,
/// and edge around them.
pub fn first_boards()
    ensures { FirstBoardsAreJustThese }
{}

/// A legal move leaves exactly one board. After a play its stone is on the point, the captured stones are gone, and
/// everything else is as it was. A pass changes nothing.
pub fn boards_left()
    ensures { BoardsLeftAreJustThese }
{}

/// There are stones only on the points of the game's size: for any other point `Game::at` returns `None`.
pub fn stones_on_the_board()
    ensures { StonesAreOnTheBoard }
{}

/// Positional ko, also called positional superko, allows no move that simple ko forbids, and allows every move that
/// simple ko allows if the resulting board is new. Under it no play brings back a board of the game. Under simple ko no
/// play leaves the board before the previous move, and every other play on an empty point is legal if its stone's chain
/// then has a liberty.
pub fn ko_rules()
    ensures stricter { PositionalIsStricter }
    ensures new { NewBoardsAreAllowed }
    ensures never { NoBoardComesBack }
    ensures last { NoBoardComesBackAtOnce }
    ensures others { OtherPlaysAreLegal }
{}

/// The chain or region of a point is the smallest set that contains the point and, with each of its points, every
/// neighbour with the same content. It touches nothing of a kind exactly if some such set has none of that kind beside
/// its points. So a stone is captured exactly if some such set has no empty point beside it.
pub fn chains_as_sets()
    ensures smallest { JoinedPointsAreTheSmallestSet }
    ensures touches { UntouchedIsAway }
    ensures captured { CapturedStonesAreShutIn }
{}

/// A move adds to its colour's captures the number of stones that it captures: those of the other colour whose chains
/// have no liberty once the new stone is on the board, each counted once. Before the first move there are no captures.
pub fn taken_stones()
    ensures first { NoneIsTakenFirst }
    ensures more { MovesAddWhatTheyTake }
{}

/// The score is twice the number of Black's points minus White's, each counted once, minus komi.
pub fn scores()
    ensures { ScoresAreThese }
{}

/// Games of equal size and with equal boards have the same hash, and so do positions that also agree in the ko point
/// and the colour to move. So different hashes show a difference, and equal hashes show nothing. The hash depends on
/// the size: empty boards of two sizes have different hashes.
pub fn equal_hashes()
    ensures boards { EqualBoardsHaveOneHash }
    ensures positions { EqualPositionsHaveOneHash }
    ensures sizes { EmptyBoardsHaveTheirOwnHash }
{}

/// Of as many consecutive words as a colour has candidates, exactly one chooses each candidate. So over all words of 64
/// bits, `Game::random_move` chooses any two candidates equally often, or one of them once more than the other.
pub fn random_moves()
    ensures { CandidatesAreChosenEvenly }
{}

/// The indexes from 0 up to the number of a board's points, exclusive, are those of its points, and each is the index
/// of exactly one.
pub fn numbers_of_points()
    ensures one { IndexesAreOfOnePoint }
    ensures those { IndexesAreThose }
{}
