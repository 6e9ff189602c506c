//! The integers of the protocol.
ghost use Rattle.std.specs.Prelude.{◌≡◌, ◌+◌, ◌≤◌, ℕ, IfSome, IfNone, length};
ghost use Rattle.std.specs.Char.{is_ascii_digit};
ghost use Rattle.std.specs.List.{prefix_len};
ghost use Rattle.go_base.specs.Int.{SpellsInt, int_of, written_int};
ghost use Rattle.go_base.specs.Text.{front_while, skip_while};

use arrayvec::ArrayVec;

/// The greatest integer of the protocol.
const MOST_INT: u32 = 2_147_483_647;

/// Reads an integer: one or more digits and nothing else, with or without leading zeros, of a value up to
/// 2,147,483,647. Returns `None` for every other text, such as one with a sign, and for a greater value.
pub fn read_int(text: &[u8]) -> Option<u32>
    ensures read { IfSome result (λ n. SpellsInt n text.now) }
    ensures unread { IfNone result ((n : ℕ) → SpellsInt n text.now → ⊥) }
    ensures value { result ≡ int_of text.now }
{
    if text.is_empty() {
        return None;
    }
    let mut value: u32 = 0;
    for byte in text {
        if !byte.is_ascii_digit() {
            return None;
        }
        let digit = u32::from(*byte - b'0');
        if value > (MOST_INT - digit) / 10 {
            return None;
        }
        value = value * 10 + digit;
    }
    Some(value)
}

/// Splits a text after the digits at its front. Returns these digits and the rest.
#[tactic(auto, using(crate::proofs::general::Fronts::take_prefix_len, crate::proofs::general::Fronts::drop_prefix_len))]
pub fn split_digits(text: &[u8]) -> (&[u8], &[u8])
    ensures digits { result.0.now ≡ front_while is_ascii_digit text.now }
    ensures rest { result.1.now ≡ skip_while is_ascii_digit text.now }
    ensures len { length result.0.now + length result.1.now ≡ length text.now }
{
    text.split_at(digits_len(text))
}

/// How many digits are at the front of a text.
fn digits_len(text: &[u8]) -> usize
    ensures value { result ≡ prefix_len is_ascii_digit text.now }
    ensures within { result ≤ length text.now }
{
    text.iter().take_while(|byte| byte.is_ascii_digit()).count()
}

/// Writes a number in decimal, without leading zeros. Up to 2,147,483,647 this is how an integer of the protocol is
/// written.
pub fn write_int(number: u32) -> ArrayVec<u8, 10>
    ensures { result.items ≡ written_int number }
{
    let mut text = if number < 10 {
        ArrayVec::new()
    } else {
        write_int(number / 10)
    };
    text.push(b'0' + (number % 10) as u8);
    text
}
