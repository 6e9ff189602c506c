//! Half points and scores as texts.
ghost use Rattle.std.specs.Prelude.{◌≡◌, ◌≤◌, pos, length};
ghost use Rattle.go_base.specs.HalfPoints.{written_half_points, leader, score_text};

use crate::ints::write_int;
use crate::texts::push;
use arrayvec::ArrayVec;

/// Writes a number of half points in points: the whole part without leading zeros, and `.5` if there is a half.
pub fn write_half_points(half_points: u32) -> ArrayVec<u8, 12>
    ensures { result.items ≡ written_half_points (pos half_points) }
{
    let mut text = ArrayVec::new();
    push(&mut text, &write_int(half_points / 2));
    if half_points % 2 == 1 {
        push(&mut text, b".5");
    }
    text
}

/// Writes a score that is given in half points, positive if Black leads: `B+` or `W+` and by how many points that
/// colour leads, or `0`.
pub fn write_score(half_points: i32) -> ArrayVec<u8, 14>
    ensures { result.items ≡ score_text half_points }
{
    let mut text = ArrayVec::new();
    push(&mut text, leader(half_points));
    push(&mut text, &write_half_points(half_points.unsigned_abs()));
    text
}

/// What is written before the points.
fn leader(half_points: i32) -> &'static [u8]
    ensures leader { result.now ≡ leader half_points }
    ensures few { length result.now ≤ 2 }
{
    match half_points {
        0 => b"",
        1.. => b"B+",
        _ => b"W+",
    }
}
