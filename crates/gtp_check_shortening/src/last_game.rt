//! The last game of a conversation, if only that is shown.
ghost use Rattle.std.specs.Prelude.{◌≡◌, ◌≤◌, length, not, count_by, slice_get, option_map};
ghost use Rattle.std.specs.List.{range_with_len};
ghost use Rattle.gtp_check_shortening.specs.LastGame.{is_boardsize, is_place, last_game, last_setting, left_out};
ghost use Rattle.gtp_check_shortening.specs.LastGame.{made_by, sets, shows, size_before};

use crate::flat::start_of;
use crate::played::asked_as;
use crate::superko::play_of;
use go_base::{Move, Size};
use gtp_check_judge::CheckCommand;
use gtp_check_talk::{Said, said_at};
use gtp_wire::Command;

/// The last game of a conversation, and the commands that set what is in force when it begins.
#[derive(Clone, Copy, Debug, PartialEq, Eq)]
pub struct LastGame {
    /// How many commands come before it.
    pub start: usize,
    /// The place of the command that set the size of its board, counted from 0, if one did.
    pub size: Option<usize>,
    /// The place of the command that set its komi, if one did.
    pub komi: Option<usize>,
}

/// Something that is in force in a game.
#[derive(Clone, Copy, Debug, PartialEq, Eq)]
pub enum Setting {
    /// The board has this size.
    Size(Size),
    /// There is a komi.
    Komi,
}

/// Returns the last game of a conversation: it begins with the last `clear_board`, or with the conversation.
pub fn last_game(talk: &[Said]) -> LastGame
    ensures { result ≡ last_game talk.now }
{
    let start = start_of(talk, 1);
    LastGame {
        start,
        size: size_before(talk, start),
        komi: last_setting(&Setting::Komi, talk, start),
    }
}

/// Returns the place where the size was set that the board had when the command at this place was asked.
fn size_before(talk: &[Said], start: usize) -> Option<usize>
    requires { start ≤ length talk.now }
    ensures { result ≡ size_before talk.now start }
{
    let said = said_at(talk, start)?;
    last_setting(&Setting::Size(said.size), talk, start)
}

/// Returns the last place before this one at which a command sets this.
fn last_setting(what: &Setting, talk: &[Said], before: usize) -> Option<usize>
    requires { before ≤ length talk.now }
    ensures { result ≡ last_setting what.now talk.now before }
{
    let mut last = None;
    for place in 0..before {
        if sets(what, &talk[place].command) {
            last = Some(place);
        }
    }
    last
}

/// Returns whether a command sets this: it is the `boardsize` of that size, or a `komi`.
fn sets(what: &Setting, command: &CheckCommand) -> bool
    ensures { result ≡ sets what.now command.now }
{
    match what {
        Setting::Size(size) => is_boardsize(*size, command),
        Setting::Komi => matches!(command, CheckCommand::Match(Command::Komi(_))),
    }
}

/// Returns whether a command is the `boardsize` of this size.
fn is_boardsize(size: Size, command: &CheckCommand) -> bool
    ensures { result ≡ is_boardsize size command.now }
{
    match command {
        CheckCommand::Match(Command::Boardsize(asked)) => *asked == size,
        _ => false,
    }
}

impl LastGame {
    /// Returns whether the command at this place is shown: it is one of the game, or set what is in force when that
    /// begins.
    pub fn shows(&self, place: usize) -> bool
        ensures { result ≡ shows self.now place }
    {
        self.start <= place || is_place(self.size, place) || is_place(self.komi, place)
    }

    /// Returns how many commands aren't shown.
    pub fn left_out(&self) -> usize
        ensures { result ≡ left_out self.now }
    {
        (0..self.start).filter(|place| !self.shows(*place)).count()
    }
}

/// Returns whether it is this place.
fn is_place(set: Option<usize>, place: usize) -> bool
    ensures { result ≡ is_place set place }
{
    match set {
        Some(set) => set == place,
        None => false,
    }
}

/// Returns the move that a command made, if `next` was asked after it, or `None` if it made none.
pub fn made_by(said: &Said, next: &Said) -> Option<Move>
    ensures { result ≡ made_by said.now next.now }
{
    match asked_as(said, next) {
        Some(done) => play_of(&done),
        None => None,
    }
}
