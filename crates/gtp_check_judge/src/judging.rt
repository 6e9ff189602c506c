//! Whether a reply is correct.
ghost use Rattle.std.specs.Prelude.{◌≡◌};
ghost use Rattle.go_base.specs.Handicap.{AllowsHandicap, handicap_points};
ghost use Rattle.gtp_wire.specs.Words.{reply_words};
ghost use Rattle.gtp_wire.specs.ReplyWords.{choice_of_text, names_points};
ghost use Rattle.gtp_check_judge.specs.Scores.{score_of_text};
ghost use Rattle.gtp_check_judge.specs.Judging.{Judged, ChoiceJudged, SaidJudged, VertexJudged, score_judged};
ghost use Rattle.gtp_check_judge.specs.Judging.{view_judged, MayBeJudged, has_id, success_judged};
ghost use Rattle.gtp_check_judge.specs.Judging.{failure_judged, size_judged, undo_judged, points_judged, refused_by};
ghost use Rattle.gtp_check_judge.specs.Judging.{list_judged};
ghost use Rattle.gtp_check_judge.specs.Listings.{lists_required, rows};

use crate::dues::{Cause, Due};
use crate::listings::lists_required;
use crate::opinions::{Opinion, View, agrees, opinion_with, view_of};
use crate::scores::read_score;
use go_base::{Choice, Colour, Komi, Size, Vertex, handicap};
use go_board::{Game, PlayFault};
use gtp_wire::{Reply, names_points, read_choice};

/// What is wrong with the output of an engine.
#[derive(Clone, Copy, Debug, PartialEq, Eq)]
pub enum Kind {
    /// It refused a command that a correct engine carries out.
    Refused,
    /// It carried out a command that a correct engine refuses for this cause.
    Took(Cause),
    /// It listed other points than those of the handicap.
    OtherPoints,
    /// It failed at a `genmove`.
    NoMove,
    /// It answered a `genmove` with neither a vertex nor `resign`.
    NoVertex,
    /// It answered a `genmove` with a move that isn't legal, for this cause.
    Unlawful(PlayFault),
    /// Its reply to `list_commands` lacks a command that the standard requires of every engine.
    Unlisted,
    /// It answered a `final_score` with a success that is no score.
    NoScore,
    /// It answered a `final_score` with a score that differs by more than the komis do from one that it gave three
    /// times in a row.
    OtherScore,
    /// Its reply has no id, or another one than the oldest unanswered command.
    WrongId,
    /// It wrote a reply when no command was unanswered.
    Unasked,
    /// It wrote something that doesn't begin as a reply.
    NoStatus,
    /// It wrote more bytes than a reply may have.
    Overlong,
}

/// What the engine refused and may refuse. It changed nothing.
#[derive(Clone, Copy, Debug, PartialEq, Eq)]
pub enum Refusal {
    /// A board of this size.
    Size(Size),
    /// To undo another move, after one that it undid.
    Undo,
}

/// How a reply is judged.
#[derive(Clone, Copy, Debug, PartialEq, Eq)]
pub enum Judgement {
    /// It is correct.
    Right,
    /// It is a correct reply to a `genmove`: this colour plays this vertex.
    Plays(Colour, Vertex),
    /// It is a correct reply to a `boardsize`: the board has this size now.
    Resized(Size),
    /// It is a correct reply to an `undo`: the last move is undone.
    Undone,
    /// It is a correct reply to a `final_score`: this is the engine's opinion of an empty board now.
    Opines(Opinion),
    /// It is wrong.
    Wrong(Kind),
}

/// Returns whether the reply has this id.
pub(crate) fn has_id(id: Option<u32>, wanted: u32) -> bool
    ensures { result ≡ has_id id wanted }
{
    match id {
        None => false,
        Some(id) => id == wanted,
    }
}

/// Judges a reply to a command by what is due to it. The game and the opinion are a correct engine's.
pub(crate) fn judge(game: &Game, opinion: &Opinion, due: Due, reply: &Reply) -> Judgement
    requires { MayBeJudged due }
    ensures { Judged game.now opinion.now due reply.now result }
{
    match due {
        Due::Succeeds => success_judged(reply.ok),
        Due::Fails(cause) => failure_judged(cause, reply.ok),
        Due::Places(size, stones) => points_judged(
            reply.ok && are_points(size, stones, reply),
            reply.ok,
        ),
        Due::Resizes(size) => size_judged(size, reply.ok),
        Due::Scores(size, komi) => score_judged(opinion, size, komi, reply),
        Due::AnyReply => Judgement::Right,
        Due::Chooses(colour) => choice_judged(game, colour, reply),
        Due::MayUndo => undo_judged(reply.ok),
        Due::Lists => list_judged(reply),
    }
}

/// Judges a reply to a `boardsize`.
fn size_judged(size: Size, ok: bool) -> Judgement
    ensures { result ≡ size_judged size ok }
{
    if ok {
        Judgement::Resized(size)
    } else {
        Judgement::Right
    }
}

/// Judges a reply to an `undo` that may fail.
fn undo_judged(ok: bool) -> Judgement
    ensures { result ≡ undo_judged ok }
{
    if ok {
        Judgement::Undone
    } else {
        Judgement::Right
    }
}

/// Returns what the engine refused with a reply of this status, if anything that it may refuse.
pub(crate) fn refused_by(due: Due, ok: bool) -> Option<Refusal>
    ensures { result ≡ refused_by due ok }
{
    match due {
        Due::Resizes(size) => { if ok { None } else { Some(Refusal::Size(size)) } }
        Due::MayUndo => { if ok { None } else { Some(Refusal::Undo) } }
        Due::Succeeds
        | Due::Fails(_)
        | Due::Places(..)
        | Due::Scores(..)
        | Due::AnyReply
        | Due::Chooses(_)
        | Due::Lists => None,
    }
}

/// Judges a reply that should be a success.
fn success_judged(ok: bool) -> Judgement
    ensures { result ≡ success_judged ok }
{
    if ok {
        Judgement::Right
    } else {
        Judgement::Wrong(Kind::Refused)
    }
}

/// Judges a reply that should be a failure.
fn failure_judged(cause: Cause, ok: bool) -> Judgement
    ensures { result ≡ failure_judged cause ok }
{
    if ok {
        Judgement::Wrong(Kind::Took(cause))
    } else {
        Judgement::Right
    }
}

/// Judges a reply that should list the points of a handicap.
fn points_judged(named: bool, ok: bool) -> Judgement
    ensures { result ≡ points_judged named ok }
{
    if !ok {
        return Judgement::Wrong(Kind::Refused);
    }
    if named {
        Judgement::Right
    } else {
        Judgement::Wrong(Kind::OtherPoints)
    }
}

/// Returns whether the text of a reply lists the points of a handicap.
fn are_points(size: Size, stones: u32, reply: &Reply) -> bool
    requires { AllowsHandicap size stones }
    ensures { result
        ≡ names_points (handicap_points size stones) (reply_words reply.now.text.items) }
{
    match handicap(size, stones) {
        None => false,
        Some(points) => names_points(&reply.text, &points),
    }
}

/// Judges a reply to `list_commands`.
fn list_judged(reply: &Reply) -> Judgement
    ensures { result
        ≡ list_judged (lists_required (rows reply.now.text.items)) reply.now.ok }
{
    if !reply.ok {
        return Judgement::Wrong(Kind::Refused);
    }
    if lists_required(&reply.text) {
        Judgement::Right
    } else {
        Judgement::Wrong(Kind::Unlisted)
    }
}

/// Judges a reply to `final_score` on a board of this size with this komi.
fn score_judged(opinion: &Opinion, size: Size, komi: Komi, reply: &Reply) -> Judgement
    ensures { result
        ≡ score_judged opinion.now size komi reply.now.ok (score_of_text reply.now.text.items) }
{
    if !reply.ok {
        return Judgement::Right;
    }
    match read_score(&reply.text) {
        None => Judgement::Wrong(Kind::NoScore),
        Some(said) => view_judged(opinion, &view_of(size, komi, said)),
    }
}

/// Judges a score by the opinion so far, if it is compared at all.
fn view_judged(opinion: &Opinion, new: &Option<View>) -> Judgement
    ensures { result ≡ view_judged opinion.now new.now }
{
    match new {
        None => Judgement::Right,
        Some(new) => {
            if agrees(opinion, new) {
                Judgement::Opines(opinion_with(opinion, new))
            } else {
                Judgement::Wrong(Kind::OtherScore)
            }
        }
    }
}

/// Judges a reply to a `genmove` of this colour.
fn choice_judged(game: &Game, colour: Colour, reply: &Reply) -> Judgement
    ensures { ChoiceJudged game.now colour reply.now.ok
        (choice_of_text reply.now.text.items) result }
{
    if !reply.ok {
        return Judgement::Wrong(Kind::NoMove);
    }
    said_judged(game, colour, read_choice(&reply.text))
}

/// Judges a `genmove` that succeeded.
fn said_judged(game: &Game, colour: Colour, said: Option<Choice>) -> Judgement
    ensures { SaidJudged game.now colour said result }
{
    match said {
        None => Judgement::Wrong(Kind::NoVertex),
        Some(Choice::Resign) => Judgement::Right,
        Some(Choice::Play(vertex)) => vertex_judged(game, colour, vertex),
    }
}

/// Judges the vertex of a `genmove`.
fn vertex_judged(game: &Game, colour: Colour, vertex: Vertex) -> Judgement
    ensures { VertexJudged game.now colour vertex result }
{
    let chosen = vertex;
    match game.refusal(colour, chosen) {
        None => Judgement::Plays(colour, vertex),
        Some(fault) => Judgement::Wrong(Kind::Unlawful(fault)),
    }
}
