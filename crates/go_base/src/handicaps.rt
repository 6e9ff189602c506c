//! Points of handicap stones.
ghost use Rattle.std.specs.Prelude.{◌≡◌, ◌≢◌, ◌↔◌, ◌%◌, ◌≤◌, ℕ, IsTrue, IsSome, IfSome, All, AllPairs, take};
ghost use Rattle.go_base.specs.Size.{IsSize};
ghost use Rattle.go_base.specs.Point.{point, IsOn};
ghost use Rattle.go_base.specs.Handicap.{AllowsHandicap, handicap_points, low_line, middle_line};

use crate::points::Point;
use crate::sizes::Size;
use arrayvec::ArrayVec;

/// Returns the points of `stones` handicap stones, in the order in which they are placed, or `None` if the size doesn't
/// allow that number. Odd sizes from 9 up allow 2 to 9 stones, size 7 and even sizes from 8 up allow 2 to 4, and all
/// other sizes allow none.
///
/// The stones are on the third line from the edges on sizes below 13, on the fourth from 13 up, and on the middle
/// lines: first in the corners, then in pairs on the sides. From 5 on, an odd number has its last stone in the centre.
pub fn handicap(size: Size, stones: u32) -> Option<ArrayVec<Point, 9>>
    ensures allowed { IsSome result ↔ AllowsHandicap size stones }
    ensures points { IfSome result (λ points. points.items ≡ handicap_points size stones) }
    ensures distinct { IfSome result (λ points. AllPairs (λ p q. p ≢ q) points.items) }
    ensures on_board { IfSome result (λ points. All (IsOn size) points.items) }
{
    if !allows(size, stones) {
        return None;
    }
    Some(stone_points(size, stones))
}

/// Whether the size allows this number of stones.
fn allows(size: Size, stones: u32) -> bool
    ensures allowed { IsTrue result ↔ AllowsHandicap size stones }
    ensures limits { IsSize size }
{
    stones >= 2 && stones <= most_stones(size)
}

/// The most stones that a size allows, or 0 if it allows none.
fn most_stones(size: Size) -> u32
    ensures most { (stones : ℕ) → ((2 ≤ stones) × (stones ≤ result)) ↔ AllowsHandicap size stones }
    ensures limits { IsSize size }
{
    let size = size.get();
    if size % 2 == 1 && size >= 9 {
        9
    } else if size >= 7 {
        4
    } else {
        0
    }
}

/// The points of an allowed number of stones.
fn stone_points(size: Size, stones: u32) -> ArrayVec<Point, 9>
    requires { AllowsHandicap size stones }
    ensures { result.items ≡ handicap_points size stones }
{
    if has_centre(stones) {
        let mut points = first_points(size, stones - 1);
        points.push(centre(size));
        points
    } else {
        first_points(size, stones)
    }
}

/// The first `stones` points of a handicap of eight stones.
fn first_points(size: Size, stones: u32) -> ArrayVec<Point, 9>
    requires large { 7 ≤ size }
    requires few { stones ≤ 8 }
    ensures { result.items ≡ take stones (handicap_points size 8) }
{
    let mut points = ArrayVec::new();
    for point in &outer_points(size)[..stones as usize] {
        points.push(*point);
    }
    points
}

/// Whether one of the stones is in the centre.
fn has_centre(stones: u32) -> bool
    ensures { IsTrue result ↔ ((5 ≤ stones) × (stones % 2 ≡ 1)) }
{
    stones >= 5 && stones % 2 == 1
}

/// The points of a handicap of eight stones: the corners, then the middles of the sides.
fn outer_points(size: Size) -> [Point; 8]
    requires { 7 ≤ size }
    ensures { result ≡ handicap_points size 8 }
{
    let low = low_line(size);
    let middle = middle_line(size);
    let high = size.get() + 1 - low;
    [
        Point::crossing(low, low),
        Point::crossing(high, high),
        Point::crossing(low, high),
        Point::crossing(high, low),
        Point::crossing(low, middle),
        Point::crossing(high, middle),
        Point::crossing(middle, low),
        Point::crossing(middle, high),
    ]
}

/// The point in the middle of the board.
fn centre(size: Size) -> Point
    ensures { result ≡ point (middle_line size) (middle_line size) }
{
    let middle = middle_line(size);
    Point::crossing(middle, middle)
}

fn low_line(size: Size) -> u32
    ensures { result ≡ low_line size }
{
    if size.get() < 13 { 3 } else { 4 }
}

fn middle_line(size: Size) -> u32
    ensures value { result ≡ middle_line size }
    ensures limit { result ≤ 13 }
    ensures some { 1 ≤ result }
{
    (size.get() + 1) / 2
}
