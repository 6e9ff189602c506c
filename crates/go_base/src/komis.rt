//! Komi.
ghost use Rattle.std.specs.Prelude.{◌≡◌, ◌↔◌, ◌+◌, ◌<◌, ◌≤◌, ℤ, pos, neg_ℤ, IsTrue, IsSome, IfSome, IfNone};
ghost use Rattle.std.specs.Prelude.{if◌then◌else◌};
ghost use Rattle.std.specs.Option.{option_copied};
ghost use Rattle.go_base.specs.HalfPoints.{written_half_points};
ghost use Rattle.go_base.specs.Komi.{IsKomi, SpellsKomi, komi_of, most_half_points};
ghost use Rattle.go_base.specs.Komi.{sign_of, minus, without_sign, unsigned_half_points_of};
ghost use Rattle.go_base.specs.Komi.{decimals_of, half_of, are_zeros};

use crate::ints::{read_int, split_digits};
use crate::scores::write_half_points;
use crate::texts::push;
use arrayvec::ArrayVec;
use std::marker::Model;

/// The greatest komi in half points, for either colour.
const MOST_HALF_POINTS: i32 = 1_999_999_999;

/// The most digits that a komi has on either side of the decimal point.
const MOST_DIGITS: usize = 9;

/// The points that White gets for playing second, as a number of half points from -1,999,999,999 to 1,999,999,999. Komi
/// is subtracted from the score, so a negative komi favours Black.
#[derive(Clone, Copy, Debug, PartialEq, Eq)]
pub struct Komi {
    half_points: i32,
}

impl Model for Komi {
    ghost use Rattle.std.specs.Prelude.{ℤ};
    ghost use Rattle.go_base.specs.Komi.{IsKomi};

    ghost Value = { ℤ };

    ghost view = { λ k. k.half_points };

    ghost invariant = { λ k. IsKomi k.half_points };

    ghost inverse = { λ z. record { half_points = z } };
}

impl Komi {
    /// Reads a komi in points: an optional `+` or `-`, at most nine digits, and optionally a decimal point with at most
    /// nine digits after it, which are zeros, or a 5 followed by zeros. There must be at least one digit. Returns
    /// `None` for every other text.
    pub fn read(text: &[u8]) -> Option<Komi>
        ensures read { IfSome result (λ komi. SpellsKomi komi text.now) }
        ensures unread { IfNone result ((half_points : ℤ) → SpellsKomi half_points text.now → ⊥) }
        ensures value { result ≡ komi_of text.now }
    {
        let (is_negative, unsigned) = split_sign(text);
        let magnitude = read_unsigned(unsigned)?;
        Some(Komi {
            half_points: with_sign(is_negative, magnitude),
        })
    }

    /// Makes a komi of `half_points` half points, from -1,999,999,999 to 1,999,999,999. Returns `None` for every other
    /// number.
    pub fn from_half_points(half_points: i32) -> Option<Komi>
        ensures limits { IsSome result ↔ IsKomi half_points }
        ensures value { IfSome result (λ komi. komi ≡ half_points) }
    {
        if !(-MOST_HALF_POINTS..=MOST_HALF_POINTS).contains(&half_points) {
            return None;
        }
        Some(Komi { half_points })
    }

    /// The komi in half points.
    pub fn half_points(self) -> i32
        ensures value { result ≡ self }
        ensures limits { IsKomi self }
    {
        self.half_points
    }

    /// Writes the komi in points: `-` if it is negative, the whole part without leading zeros, and `.5` if there is a
    /// half.
    pub fn write(self) -> ArrayVec<u8, 12>
        ensures { result.items ≡ written_half_points self }
    {
        let points = write_half_points(self.half_points.unsigned_abs());
        if self.half_points >= 0 {
            return points;
        }
        let mut text = ArrayVec::new();
        text.push(b'-');
        push(&mut text, &points);
        text
    }
}

/// The number with its sign.
fn with_sign(is_negative: bool, magnitude: u32) -> i32
    requires { magnitude ≤ most_half_points }
    ensures { result ≡ (if is_negative then neg_ℤ (pos magnitude) else pos magnitude) }
{
    if is_negative {
        -(magnitude as i32)
    } else {
        magnitude as i32
    }
}

/// Whether the text begins with a minus, and what follows its sign, or the whole text if it has none.
fn split_sign(text: &[u8]) -> (bool, &[u8])
    ensures negative { IsTrue result.0 ↔ (sign_of text.now ≡ minus) }
    ensures unsigned { result.1.now ≡ without_sign text.now }
{
    match text {
        [b'-', unsigned @ ..] => (true, unsigned),
        [b'+', unsigned @ ..] => (false, unsigned),
        _ => (false, text),
    }
}

/// The half points that a text without a sign spells.
fn read_unsigned(text: &[u8]) -> Option<u32>
    ensures value { result ≡ unsigned_half_points_of text.now }
    ensures limit { IfSome result (λ half_points. half_points ≤ most_half_points) }
{
    let (whole, rest) = split_digits(text);
    let decimals = read_decimals(rest)?;
    let half = read_half(decimals)?;
    if !are_few(whole.len(), decimals.len()) {
        return None;
    }
    let points = read_int(whole).unwrap_or(0);
    Some(2 * points + half)
}

/// Whether there may be `before` digits before the point and `after` digits after it: at least one in all, and at most
/// nine on either side.
fn are_few(before: usize, after: usize) -> bool
    ensures { IsTrue result ↔ ((0 < before + after) × (before ≤ 9) × (after ≤ 9)) }
{
    (before > 0 || after > 0) && before <= MOST_DIGITS && after <= MOST_DIGITS
}

/// What follows the point.
fn read_decimals(rest: &[u8]) -> Option<&[u8]>
    ensures { option_copied result ≡ decimals_of rest.now }
{
    match rest {
        [] => Some(rest),
        [b'.', decimals @ ..] => Some(decimals),
        _ => None,
    }
}

/// The half points of the digits after the decimal point: no digits, zeros, or a 5 followed by zeros.
fn read_half(decimals: &[u8]) -> Option<u32>
    ensures value { result ≡ half_of decimals.now }
    ensures limit { IfSome result (λ halves. halves ≤ 1) }
{
    match decimals {
        [] => Some(0),
        [b'0', zeros @ ..] if are_zeros(zeros) => Some(0),
        [b'5', zeros @ ..] if are_zeros(zeros) => Some(1),
        _ => None,
    }
}

fn are_zeros(digits: &[u8]) -> bool
    ensures { result ≡ are_zeros digits.now }
{
    digits.iter().all(|digit| *digit == b'0')
}
