//! Laws of lines, commands and replies, for the crates that use them.
//!
//! Each is the contract of a function with an empty body.
ghost use Rattle.gtp_wire.specs.Laws.{AnyPiecesReadAlike, WrittenCommandsAreLines, OneAnswerComesFirst};
ghost use Rattle.gtp_wire.specs.Laws.{NoReplyBeginsAnother, RepliesComeFirst, AnyPiecesAnswerAlike};
ghost use Rattle.gtp_wire.specs.Laws.{HandicapsAreNamedOnce, WrittenChoicesAreRead, WrittenPointsAreNamed};
ghost use Rattle.gtp_wire.specs.AnyText.{FaultsHavePlaces, FaultsStay};

/// However a text is chunked, the same lines are found.
pub fn any_pieces_read_alike()
    ensures { AnyPiecesReadAlike }
{}

/// A written command, with anything after it, is read as one line with its id and words, followed by the lines of the
/// rest.
#[tactic(auto, using(crate::proofs::written::CommandWords::commands_are_lines))]
pub fn written_commands_are_lines()
    ensures { WrittenCommandsAreLines }
{}

/// At most one reply or fault comes first in a text, and it ends at one byte.
#[tactic(auto, using(crate::proofs::first_answers::OneAnswer::one_first))]
pub fn one_answer_comes_first()
    ensures { OneAnswerComesFirst }
{}

/// No reply is a proper prefix of another.
pub fn no_reply_begins_another()
    ensures { NoReplyBeginsAnother }
{}

/// A reply at the front of a text comes first in it and ends at its own last byte, whatever follows.
pub fn replies_come_first()
    ensures { RepliesComeFirst }
{}

/// However a text is chunked, the same reply or fault comes first.
pub fn any_pieces_answer_alike()
    ensures { AnyPiecesAnswerAlike }
{}

/// `NoStatus` comes at the first byte with which no reply can begin, and `Overlong` at byte 8,193 if nothing came
/// before. They come nowhere else.
#[tactic(auto, using(crate::proofs::first_answers::Faults::faults_have_places))]
pub fn faults_have_places()
    ensures { FaultsHavePlaces }
{}

/// A fault is final: after it no byte is used, and the same fault is returned again.
pub fn faults_stay()
    ensures { FaultsStay }
{}

/// The words of a reply to `fixed_handicap` name the points of the handicap, or any other distinct points, exactly if
/// each word is a vertex on one of these points and each point is named by one word. The order doesn't matter.
pub fn handicaps_are_named_once()
    ensures { HandicapsAreNamedOnce }
{}

/// A text that is a written vertex is read as the choice to play it, and `resign` as the choice to resign.
#[tactic(auto, using(crate::proofs::texts::ReadBack::choices_are_read))]
pub fn written_choices_are_read()
    ensures { WrittenChoicesAreRead }
{}

/// If points are written as vertices with single spaces between them, the words of that text name these points.
#[tactic(auto, using(crate::proofs::texts::ReadBack::points_are_named))]
pub fn written_points_are_named()
    ensures { WrittenPointsAreNamed }
{}
