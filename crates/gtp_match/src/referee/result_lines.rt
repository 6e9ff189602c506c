//! The result line of a match that is over, by its own verdict or by a ruling.
ghost use Rattle.std.specs.Prelude.{◌≡◌, ◌+◌, ◌≤◌, ◌++◌, Some, IfSome, IfNone};
ghost use Rattle.arrayvec.specs.ArrayVec.{array_vec_len};
ghost use Rattle.gtp_match.specs.referee.Refereed.{GoesOn};
ghost use Rattle.gtp_match.specs.referee.ResultLine.{line_of, ruled_head, ruled_line, ruling_text};

use crate::matches::Match;
use crate::referee::refereed::RefereedMatch;
use crate::referee::rulings::{Ruled, Ruling};
use crate::result_lines::{
    self, MOST_HEAD_BYTES, MOST_NUMBER_BYTES, ResultText, push_counts, won_against,
};
use arrayvec::ArrayVec;
use go_base::{push, write_int};

/// Returns the result line of a match that is over, without its newline: `game N: VERDICT moves M restarts RB RW`. If a
/// ruling ended the match, the verdict is `W+T` or `W+F(REASON)` when Black loses, and `B+T` or `B+F(REASON)` when
/// White does. Returns `None` before the end.
pub fn result_line(game: u32, ended: &RefereedMatch) -> Option<ResultText>
    ensures some { IfSome result (λ text. line_of game ended.now ≡ Some text.items) }
    ensures none { IfNone result (GoesOn ended.now) }
{
    match ended.ruled() {
        None => result_lines::result_line(game, ended.played()),
        Some(given) => Some(ruled_line(game, ended.played(), given)),
    }
}

/// The result line of a match that a ruling ended.
fn ruled_line(game: u32, ended: &Match, given: &Ruled) -> ResultText
    ensures { result.items ≡ ruled_line game ended.now given.now }
{
    let mut text = ArrayVec::new();
    push_head(&mut text, game, given);
    push_counts(&mut text, ended);
    text
}

/// Appends the game's number and the ruling.
fn push_head(text: &mut ResultText, game: u32, given: &Ruled)
    requires { array_vec_len text.old ≡ 0 }
    ensures bytes { text.new.items ≡ text.old.items ++ ruled_head game given.now }
    ensures len { array_vec_len text.new ≤ MOST_HEAD_BYTES }
{
    push(text, b"game ");
    push(text, &write_int(game));
    push(text, b": ");
    push(text, won_against(given.loser));
    push_ruling(text, &given.ruling);
}

/// Appends why a side lost.
fn push_ruling(text: &mut ResultText, ruling: &Ruling)
    requires { array_vec_len text.old ≤ MOST_NUMBER_BYTES + 2 }
    ensures bytes { text.new.items ≡ text.old.items ++ ruling_text ruling.now }
    ensures len { array_vec_len text.new ≤ array_vec_len text.old + 23 }
{
    match ruling {
        Ruling::Time => push(text, b"T"),
        Ruling::Reason(kept) => {
            push(text, b"F(");
            push(text, kept);
            push(text, b")");
        }
    }
}
