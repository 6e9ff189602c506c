//! The reply to `final_score`.
ghost use Rattle.std.specs.Prelude.{◌≡◌, ◌≤◌, IfSome, IsTrue, length};
ghost use Rattle.std.specs.Char.{is_ascii_digit};
ghost use Rattle.std.specs.List.{list_all, prefix_len};
ghost use Rattle.std.specs.Option.{option_copied};
ghost use Rattle.std.specs.Str.Parse.{AllDigits, digits_value};
ghost use Rattle.go_base.specs.Komi.{decimals_of};
ghost use Rattle.go_base.specs.Text.{skip_while};
ghost use Rattle.gtp_check_judge.specs.Scores.{points_of, lead_of, negative, negated, zero_of, score_of_word};
ghost use Rattle.gtp_check_judge.specs.Scores.{score_of_text, score_of_digits, unit_of, are_only_zeros, IsInReach};
ghost use Rattle.gtp_check_judge.specs.Scores.{after_sign, are_some_digits, before_exponent, is_before_exponent};
ghost use Rattle.gtp_check_judge.specs.Scores.{plain_points_of, with_exponent};

use go_base::{read_int, split_digits};
use gtp_wire::first_word;

/// The most digits before the decimal point of a score that is compared.
const MOST_BEFORE: usize = 9;

/// The most digits after the decimal point of a score that is compared.
const MOST_AFTER: usize = 6;

/// A score.
#[derive(Clone, Copy, Debug, PartialEq, Eq)]
pub struct Score {
    /// The score in millionths of a point, positive if Black leads.
    pub millionths: i64,
    /// One unit of the last digit that was written, in millionths of a point.
    pub unit: u64,
}

/// What was read from a text that is a score.
#[derive(Clone, Copy, Debug, PartialEq, Eq)]
pub enum SaidScore {
    /// This number.
    Number(Score),
    /// A number that is never compared: it has more than nine digits before the decimal point, more than six after it,
    /// or an exponent, whose value isn't read.
    Long,
}

/// Returns the score that a text is: one word, `B+` or `W+` and points, or a zero.
pub(crate) fn read_score(text: &[u8]) -> Option<SaidScore>
    ensures value { result ≡ score_of_text text.now }
    ensures limits { IfSome result IsInReach }
{
    let (word, rest) = first_word(text)?;
    if first_word(rest).is_some() {
        return None;
    }
    read_word(word)
}

/// Returns the score that a word is.
fn read_word(word: &[u8]) -> Option<SaidScore>
    ensures value { result ≡ score_of_word word.now }
    ensures limits { IfSome result IsInReach }
{
    match word {
        [b'B', rest @ ..] => read_lead(rest),
        [b'W', rest @ ..] => negated(read_lead(rest)),
        [] => None,
        [..] => read_zero(word),
    }
}

/// Reads the points after a letter and a plus.
fn read_lead(rest: &[u8]) -> Option<SaidScore>
    ensures value { result ≡ lead_of rest.now }
    ensures limits { IfSome result IsInReach }
{
    match rest {
        [b'+', points @ ..] => read_points(points),
        _ => None,
    }
}

/// Returns the score with White in the lead by these points.
fn negated(lead: Option<SaidScore>) -> Option<SaidScore>
    requires { IfSome lead IsInReach }
    ensures value { result ≡ negated lead }
    ensures limits { IfSome result IsInReach }
{
    match lead {
        None => None,
        Some(said) => Some(negative(said)),
    }
}

/// The same for a score that is there.
fn negative(said: SaidScore) -> SaidScore
    requires { IsInReach said }
    ensures value { result ≡ negative said }
    ensures limits { IsInReach result }
{
    match said {
        SaidScore::Long => SaidScore::Long,
        SaidScore::Number(score) => SaidScore::Number(Score {
            millionths: -score.millionths,
            unit: score.unit,
        }),
    }
}

/// Reads a score without a letter, which has to be zero.
fn read_zero(text: &[u8]) -> Option<SaidScore>
    ensures value { result ≡ zero_of text.now }
    ensures limits { IfSome result IsInReach }
{
    let (number, _) = split_exponent(text);
    if are_only_zeros(number) {
        read_points(text)
    } else {
        None
    }
}

/// Returns whether all digits of a text are zeros.
fn are_only_zeros(text: &[u8]) -> bool
    ensures { result ≡ are_only_zeros text.now }
{
    text.iter().all(|byte| *byte == b'0' || *byte == b'.')
}

/// Reads a score without a sign: digits, an optional decimal point and digits, and an optional exponent.
fn read_points(text: &[u8]) -> Option<SaidScore>
    ensures value { result ≡ points_of text.now }
    ensures limits { IfSome result IsInReach }
{
    let (number, exponent) = split_exponent(text);
    let said = read_plain_points(number)?;
    with_exponent(said, exponent)
}

/// Splits a text before the first letter of an exponent, `e` or `E`.
fn split_exponent(text: &[u8]) -> (&[u8], &[u8])
    ensures number { result.0.now ≡ before_exponent text.now }
    ensures exponent { result.1.now ≡ skip_while is_before_exponent text.now }
{
    text.split_at(before_exponent_len(text))
}

/// Returns the score of a number and what follows it. It is never compared if that is an exponent.
fn with_exponent(said: SaidScore, exponent: &[u8]) -> Option<SaidScore>
    requires { IsInReach said }
    ensures value { result ≡ with_exponent said exponent.now }
    ensures limits { IfSome result IsInReach }
{
    match exponent {
        [] => Some(said),
        [_, rest @ ..] if are_some_digits(after_sign(rest)) => Some(SaidScore::Long),
        _ => None,
    }
}

/// Returns what follows the sign of an exponent, which may have none.
fn after_sign(exponent: &[u8]) -> &[u8]
    ensures { result.now ≡ after_sign exponent.entry.now }
{
    match exponent {
        [b'+' | b'-', digits @ ..] => digits,
        _ => exponent,
    }
}

/// Returns whether a text is one digit or more.
fn are_some_digits(text: &[u8]) -> bool
    ensures { result ≡ are_some_digits text.now }
{
    are_digits(text) && !text.is_empty()
}

/// Reads a score without sign and exponent: digits, and an optional decimal point and digits.
fn read_plain_points(text: &[u8]) -> Option<SaidScore>
    ensures value { result ≡ plain_points_of text.now }
    ensures limits { IfSome result IsInReach }
{
    let (whole, rest) = split_digits(text);
    let decimals = read_decimals(rest)?;
    if !are_digits(decimals) || whole.len() + decimals.len() == 0 {
        return None;
    }
    Some(score_of_digits(whole, decimals))
}

/// Returns what follows the decimal point.
fn read_decimals(rest: &[u8]) -> Option<&[u8]>
    ensures { option_copied result ≡ decimals_of rest.now }
{
    match rest {
        [] => Some(rest),
        [b'.', decimals @ ..] => Some(decimals),
        _ => None,
    }
}

/// Returns whether each byte of a text is a digit.
fn are_digits(text: &[u8]) -> bool
    ensures { result ≡ list_all is_ascii_digit text.now }
{
    text.iter().all(|byte| byte.is_ascii_digit())
}

/// Returns the score with these digits before the decimal point and after it.
fn score_of_digits(whole: &[u8], decimals: &[u8]) -> SaidScore
    requires before { AllDigits 10 whole.now }
    requires after { AllDigits 10 decimals.now }
    ensures value { result ≡ score_of_digits whole.now decimals.now }
    ensures limits { IsInReach result }
{
    if whole.len() > MOST_BEFORE || decimals.len() > MOST_AFTER {
        return SaidScore::Long;
    }
    let unit = unit_of(decimals.len());
    let millionths = 1_000_000 * number_of(whole) + unit * number_of(decimals);
    SaidScore::Number(Score {
        millionths: millionths as i64,
        unit,
    })
}

/// Returns the number with at most nine digits, which may be none.
fn number_of(digits: &[u8]) -> u64
    requires digits { AllDigits 10 digits.now }
    requires few { length digits.now ≤ 9 }
    ensures value { result ≡ digits_value 10 digits.now }
    ensures limit { result ≤ 999999999 }
{
    u64::from(read_int(digits).unwrap_or(0))
}

/// Returns how many bytes come before the letter of an exponent.
fn before_exponent_len(text: &[u8]) -> usize
    ensures value { result ≡ prefix_len is_before_exponent text.now }
    ensures within { result ≤ length text.now }
{
    text.iter()
        .take_while(|byte| **byte != b'e' && **byte != b'E')
        .count()
}

/// Returns one unit of the last of this many digits after the decimal point, in millionths of a point.
fn unit_of(digits: usize) -> u64
    ensures value { result ≡ unit_of digits }
    ensures few { result ≤ 1000000 }
{
    match digits {
        0 => 1_000_000,
        1 => 100_000,
        2 => 10_000,
        3 => 1_000,
        4 => 100,
        5 => 10,
        _ => 1,
    }
}
