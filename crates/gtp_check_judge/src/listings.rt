//! The reply to `list_commands`.
ghost use Rattle.std.specs.Prelude.{◌≡◌};
ghost use Rattle.std.specs.List.{list_all};
ghost use Rattle.gtp_check_judge.specs.Listings.{is_listed, is_row_of, lists_required, rows};

use gtp_wire::first_word;

/// The commands that the standard requires of every engine: the administrative ones, and those of setup and of play.
static REQUIRED: [&[u8]; 11] = [
    b"protocol_version",
    b"name",
    b"version",
    b"known_command",
    b"list_commands",
    b"quit",
    b"boardsize",
    b"clear_board",
    b"komi",
    b"play",
    b"genmove",
];

/// Returns whether a text has a row for each of these.
pub(crate) fn lists_required(text: &[u8]) -> bool
    ensures { result ≡ lists_required (rows text.now) }
{
    are_listed(text, &REQUIRED)
}

/// Returns whether a text has a row for each of these names.
fn are_listed(text: &[u8], names: &[&[u8]]) -> bool
    ensures { result ≡ list_all (λ name. is_listed (rows text.now) name.now) names.now }
{
    names.iter().all(|name| is_listed(text, name))
}

/// Returns whether one of the rows of a text is a name.
fn is_listed(text: &[u8], name: &[u8]) -> bool
    ensures { result ≡ is_listed (rows text.now) name.now }
{
    for row in text.split(|byte| *byte == b'\n') {
        if is_row_of(name, row) {
            return true;
        }
    }
    false
}

/// Returns whether a row has just this word.
fn is_row_of(name: &[u8], row: &[u8]) -> bool
    ensures { result ≡ is_row_of name.now row.now }
{
    match first_word(row) {
        None => false,
        Some((word, rest)) => match first_word(rest) {
            Some(_) => false,
            None => name == word,
        },
    }
}
