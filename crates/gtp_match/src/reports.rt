//! What a match reports of the bytes of a side: a refused `play` that is retaken, and a loss.
ghost use Rattle.std.specs.Prelude.{◌≡◌, None, Some, IfSome, IsSome};
ghost use Rattle.std.specs.Option.{option_or};
ghost use Rattle.gtp_match.specs.Losing.{HasLossCause, first_of, owed};
ghost use Rattle.gtp_match.specs.Sides.{side_of};
ghost use Rattle.gtp_match.specs.private.Adding.{AddsReply, IsRetakeCount};

use crate::controller::Controller;
use crate::losses::{Loss, LossCause, Owed, broken_rule, owed_by};
use crate::reply_table::Outcome;
use crate::verdicts::ForfeitCause;
use go_base::Side;
use gtp_wire::{Reply, read_choice};

/// Reports that a refused `play` is retaken: the refused move leaves the record, and its maker is asked for another,
/// unless the match ends before that. This is not a loss.
#[derive(Drop)]
pub struct Retake {
    /// How often the move of this number was retaken, this time included: 1 to 3.
    pub count: u32,
    /// What the refusing side owed when its reply ended: only the refused `play`. The bytes are those of the refusal,
    /// without what follows it.
    pub owed: Owed,
}

/// What a match reports of the bytes that it processed.
#[derive(Drop)]
pub struct Report {
    /// The refused `play` that is retaken, if any.
    pub retake: Option<Retake>,
    /// Why the side fails, if it does. If there is also a retake, the loss came after it.
    pub loss: Option<Loss>,
}

impl Report {
    /// Returns an empty report.
    pub(crate) fn nothing() -> Report
        ensures { result ≡ record { retake = None; loss = None } }
    {
        Report {
            retake: None,
            loss: None,
        }
    }

    /// Adds a retake, unless the report has one.
    fn add_retake(&mut self, retake: Retake)
        ensures retake { self.new.retake ≡ option_or self.old.retake (Some retake) }
        ensures loss { self.new.loss ≡ self.old.loss }
    {
        if self.retake.is_none() {
            self.retake = Some(retake);
        }
    }

    /// Adds a loss, unless the report has one.
    pub(crate) fn add_loss(&mut self, loss: Loss)
        ensures loss { self.new.loss ≡ first_of self.old.loss (Some loss) }
        ensures retake { self.new.retake ≡ self.old.retake }
    {
        if self.loss.is_none() {
            self.loss = Some(loss);
        }
    }
}

impl Controller {
    /// Returns what a side owes, or `None` if it is down or a verdict was given.
    pub fn owed(&self, side: Side) -> Option<Owed>
        ensures { result ≡ owed self.now side }
    {
        if self.verdict.is_some() {
            return None;
        }
        match &self.sides.side_of(side).up {
            None => None,
            Some(engine) => Some(owed_by(engine)),
        }
    }

    /// Adds what a reply with this outcome shows to a report: that a refused `play` is retaken, or why the side fails.
    /// The side owed this at the end of the reply.
    pub fn report(
        &self,
        side: Side,
        outcome: Outcome,
        reply: &Reply,
        owed: Owed,
        report: &mut Report,
    )
        requires { IsSome (side_of self.now.sides side).up }
        ensures { IfSome (side_of self.now.sides side).up (λ engine.
            AddsReply self.now side engine reply.now outcome owed report.old report.new) }
    {
        let judged = outcome;
        if let Some(count) = self.retake_count(side, judged) {
            report.add_retake(Retake { count, owed });
        } else if let Some(cause) = self.loss_cause(side, outcome, reply) {
            report.add_loss(Loss { cause, owed });
        }
    }

    /// Returns how often the last move's number was retaken, this time included, if a reply with this outcome is a
    /// refusal that is retaken.
    fn retake_count(&self, side: Side, outcome: Outcome) -> Option<u32>
        requires { IsSome (side_of self.now.sides side).up }
        ensures { IfSome (side_of self.now.sides side).up (λ engine.
            IsRetakeCount self.now side engine outcome result) }
    {
        match outcome {
            Outcome::Refuses => {
                if self.may_retake(side) {
                    Some(self.retakes.of(self.number()) + 1)
                } else {
                    None
                }
            }
            Outcome::Down(_)
            | Outcome::Unfit
            | Outcome::Forfeits(_)
            | Outcome::Confirms
            | Outcome::Resigns
            | Outcome::Moves(_)
            | Outcome::TakesBack
            | Outcome::Keeps => None,
        }
    }

    /// Returns why a side fails by a reply with this outcome, if one does.
    fn loss_cause(&self, side: Side, outcome: Outcome, reply: &Reply) -> Option<LossCause>
        requires { IsSome (side_of self.now.sides side).up }
        ensures { IfSome (side_of self.now.sides side).up (λ engine.
            HasLossCause self.now side engine reply.now outcome result) }
    {
        match outcome {
            Outcome::Down(fault) => Some(LossCause::Shows(fault)),
            Outcome::Unfit => Some(LossCause::Unfit),
            Outcome::Forfeits(ForfeitCause::RefusedPlay) => Some(LossCause::RefusesPlay),
            Outcome::Forfeits(ForfeitCause::NoMove) => Some(LossCause::NoMove),
            Outcome::Forfeits(ForfeitCause::NoVertex) => Some(LossCause::NoVertex),
            Outcome::Forfeits(ForfeitCause::IllegalMove) => {
                broken_rule(&self.game, side, read_choice(&reply.text))
            }
            Outcome::Refuses => {
                if self.may_retake(side) {
                    None
                } else {
                    Some(LossCause::RefusesPlay)
                }
            }
            Outcome::Keeps => Some(LossCause::KeepsMove),
            Outcome::Confirms | Outcome::Resigns | Outcome::Moves(_) | Outcome::TakesBack => None,
        }
    }
}
