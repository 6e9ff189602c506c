//! A game's board as text.
ghost use Rattle.std.specs.Prelude.{◌≡◌, ◌+◌, ◌<◌, ◌≤◌, [], ◌∷◌, ◌++◌};
ghost use Rattle.arrayvec.specs.ArrayVec.{array_vec_len};
ghost use Rattle.go_base.specs.Bytes.{space};
ghost use Rattle.go_base.specs.Point.{point, IsCrossing};
ghost use Rattle.go_base.specs.Size.{most_size, IsSize};
ghost use Rattle.go_base.specs.Vertex.{letter_of};
ghost use Rattle.go_board.specs.Show.{shown_point, shown_letters};

use crate::game::Game;
use arrayvec::ArrayVec;
use go_base::{Colour, Point, write_int};

/// The capacity for the text of a board: 2,000 bytes, the most that the text of a reply may have. A board's text has at
/// most 1,409: 25 rows of 52 bytes and a newline, 49 bytes of letters and a newline, and 34 bytes of captures.
const TEXT_ROOM: usize = 2000;

/// The most bytes of the points of a row: two for each of 25.
const MOST_POINT_BYTES: usize = 50;

/// The most bytes of a row: its points and two digits.
const MOST_ROW_BYTES: usize = MOST_POINT_BYTES + 2;

/// The most bytes of the letters: 25 letters and 24 spaces.
const MOST_LETTER_BYTES: usize = 49;

/// The most bytes of the captures: 14 of words and spaces, and two numbers of ten digits.
const MOST_CAPTURE_BYTES: usize = 34;

/// The text of a board, as far as it has been written.
type BoardText = ArrayVec<u8, TEXT_ROOM>;

impl Game {
    ghost use Rattle.go_board.specs.Board.{stone_at};
    ghost use Rattle.go_board.specs.Game.{board_of};
    ghost use Rattle.go_board.specs.Show.{shown_points, shown_row, shown_captures, board_text};

    /// Writes the board as text: one line for each row, from the top row down to row 1, then the letters of the
    /// columns, then how many stones each colour has captured, such as `captures B 0 W 2`. The last line has no
    /// newline.
    ///
    /// A row shows its points from column A on, each followed by a space, and then its number. A black stone is `X`, a
    /// white one is `O`, and an empty point is `.`.
    pub fn show(&self) -> ArrayVec<u8, TEXT_ROOM>
        ensures { result.items ≡ board_text self.now }
    {
        let size = self.size().get();
        let mut text = ArrayVec::new();
        for row in (1..=size).rev() {
            self.push_row(&mut text, row);
            text.push(b'\n');
        }
        push_letters(&mut text, size);
        text.push(b'\n');
        self.push_captures(&mut text);
        text
    }

    /// Appends a row.
    fn push_row(&self, text: &mut BoardText, row: u32)
        requires least { 1 ≤ row }
        requires most { row ≤ most_size }
        requires room { array_vec_len text.old + MOST_ROW_BYTES ≤ TEXT_ROOM }
        ensures row { text.new.items ≡ text.old.items ++ shown_row self.now row }
        ensures few { array_vec_len text.new ≤ array_vec_len text.old + MOST_ROW_BYTES }
    {
        self.push_points(text, row);
        // The capacity suffices, so nothing is rejected.
        let _ = text.try_extend_from_slice(&write_int(row));
    }

    /// Appends the points of a row.
    fn push_points(&self, text: &mut BoardText, row: u32)
        requires least { 1 ≤ row }
        requires most { row ≤ most_size }
        requires room { array_vec_len text.old + MOST_POINT_BYTES ≤ TEXT_ROOM }
        ensures points { text.new.items ≡ text.old.items ++ shown_points self.now row }
        ensures few { array_vec_len text.new ≤ array_vec_len text.old + MOST_POINT_BYTES }
    {
        let size = self.size().get();
        for column in 1..=size {
            text.push(mark(self.stone_on(column, row)));
            text.push(b' ');
        }
    }

    /// The stone where a column and a row cross.
    fn stone_on(&self, column: u32, row: u32) -> Option<Colour>
        requires { IsCrossing column row }
        ensures { result ≡ stone_at (board_of self.now) (point column row) }
    {
        let point = Point::new(column, row)?;
        self.at(point)
    }

    /// Appends how many stones each colour has captured.
    fn push_captures(&self, text: &mut BoardText)
        requires { array_vec_len text.old + MOST_CAPTURE_BYTES ≤ TEXT_ROOM }
        ensures { text.new.items ≡ text.old.items ++ shown_captures self.now }
    {
        // The capacity suffices, so nothing is rejected.
        let _ = text.try_extend_from_slice(b"captures B ");
        let _ = text.try_extend_from_slice(&write_int(self.captured(Colour::Black)));
        let _ = text.try_extend_from_slice(b" W ");
        let _ = text.try_extend_from_slice(&write_int(self.captured(Colour::White)));
    }
}

/// How a point is shown: `X` for a black stone, `O` for a white one, `.` for none.
fn mark(stone: Option<Colour>) -> u8
    ensures { result ∷ space ∷ [] ≡ shown_point stone }
{
    match stone {
        Some(Colour::Black) => b'X',
        Some(Colour::White) => b'O',
        None => b'.',
    }
}

/// Appends the letters of the columns of a board of this size.
fn push_letters(text: &mut BoardText, size: u32)
    requires size { IsSize size }
    requires room { array_vec_len text.old + MOST_LETTER_BYTES ≤ TEXT_ROOM }
    ensures letters { text.new.items ≡ text.old.items ++ shown_letters size }
    ensures few { array_vec_len text.new ≤ array_vec_len text.old + MOST_LETTER_BYTES }
{
    text.push(b'A');
    for column in 2..=size {
        text.push(b' ');
        push_letter(text, column);
    }
}

/// Appends the letter of a column.
fn push_letter(text: &mut BoardText, column: u32)
    requires column { IsCrossing column 1 }
    requires room { array_vec_len text.old < TEXT_ROOM }
    ensures letter { text.new.items ≡ text.old.items ++ letter_of column ∷ [] }
    ensures len { array_vec_len text.new ≡ array_vec_len text.old + 1 }
{
    if let Some(point) = Point::new(column, 1) {
        text.push(point.letter());
    }
}
