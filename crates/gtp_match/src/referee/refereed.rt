//! A match that a referee may end.
ghost use Rattle.std.specs.Prelude.{◌≡◌, ◌≢◌, [], Some, IfSome, IfOk, IfErr};
ghost use Rattle.gtp_match.specs.declared.verdicts.Action.TheVariants as action;
ghost use Rattle.gtp_match.specs.referee.Ruling.{IsReason, Rules};
ghost use Rattle.gtp_match.specs.declared.referee.rulings.RulingFault.TheVariants as fault;

use crate::losses::Owed;
use crate::matches::Match;
use crate::referee::rulings::{Ruled, Ruling, RulingFault, is_reason, kept_reason};
use crate::reports::Report;
use crate::setup::Setup;
use crate::verdicts::{Action, Verdict};
use go_base::Side;
use gtp_wire::CommandText;
use std::marker::Model;

/// A match between two engines that a referee may end by a ruling.
///
/// Until there is a ruling, it behaves as the [`Match`] that it contains. With a ruling the match is over: the match
/// and the ruling stay as they are, whatever the sides do.
#[derive(Drop)]
pub struct RefereedMatch {
    played: Match,
    ruled: Option<Ruled>,
}

impl Model for RefereedMatch {
    ghost use Rattle.gtp_match.specs.referee.Refereed.{Refereed, IsRefereed};

    ghost Value = { Refereed };

    ghost view = { λ m. record { controller = m.played; ruled = m.ruled } };

    ghost invariant = { λ m. IsRefereed (record { controller = m.played; ruled = m.ruled }) };
}

impl RefereedMatch {
    ghost use Rattle.std.specs.Prelude.{MatchOption};
    ghost use Rattle.gtp_match.specs.Controller.{next_text};
    ghost use Rattle.gtp_match.specs.Losing.{CanBeShown};
    ghost use Rattle.gtp_match.specs.Sides.{side_of};
    ghost use Rattle.gtp_match.specs.Sound.{IsSound};
    ghost use Rattle.gtp_match.specs.referee.Ruling.{reason_of};
    ghost use Rattle.gtp_match.specs.referee.Refereed.{new, next, owed, started, sent, lost, Hears, IsRefereed};
    ghost use Rattle.gtp_match.specs.referee.Refereed.{AdjudicateCall};

    /// A match with this setup that hasn't begun and has no ruling.
    pub fn new(setup: Setup) -> RefereedMatch
        ensures { result ≡ new setup }
    {
        RefereedMatch {
            played: Match::new(setup),
            ruled: None,
        }
    }

    /// The match itself. After a ruling it is as it was when the ruling was given.
    pub fn played(&self) -> &Match
        ensures played { result.now ≡ self.now.controller }
        ensures sound { IsSound self.now.controller }
    {
        // A look: the match is sound.
        let _ = self.played.game();
        &self.played
    }

    /// The ruling, if there is one.
    pub fn ruled(&self) -> &Option<Ruled>
        ensures ruled { result.now ≡ self.now.ruled }
        ensures given { IsRefereed self.now }
    {
        &self.ruled
    }

    /// The reason of the ruling. It is empty if the side ran out of time, or if there is no ruling.
    pub fn reason(&self) -> &[u8]
        ensures { result.now ≡ reason_of self.now.ruled }
    {
        match &self.ruled {
            Some(given) => given.ruling.reason(),
            None => &[],
        }
    }

    /// The match's own verdict, if it has one. A match that a ruling ended has none.
    pub fn verdict(&self) -> Option<Verdict>
        ensures verdict { result ≡ self.now.controller.verdict }
        ensures given { IsRefereed self.now }
    {
        self.played.verdict()
    }

    /// What to do next. Returns `None` after a ruling: there is nothing left to do.
    pub fn next(&self) -> Option<Action>
        ensures { result ≡ next self.now }
    {
        match &self.ruled {
            None => Some(self.played.next()),
            Some(_) => None,
        }
    }

    /// Reports that the side's engine was started. If the start failed, call `lost` next.
    ///
    /// `next` must be `Start` for this side.
    pub fn started(&mut self, side: Side)
        requires { next self.old ≡ Some (action.Start side) }
        ensures { self.new ≡ started self.old side }
    {
        self.played.started(side);
    }

    /// Returns the bytes of the side's next command, which then counts as sent. If they can't be written, call `lost`
    /// next.
    ///
    /// `next` must be `Send` for this side.
    pub fn send(&mut self, side: Side) -> CommandText
        requires { next self.old ≡ Some (action.Send side) }
        ensures sent { self.new ≡ sent self.old side }
        ensures text { MatchOption (side_of self.old.controller.sides side).up ⊥ (λ engine.
            result.items ≡ next_text self.old.controller side engine) }
    {
        self.played.send(side)
    }

    /// Passes the match these bytes, which the side's engine wrote. All of them are used. Returns what they report, as
    /// `hear_reporting` of the match does. After a ruling the bytes are ignored and nothing changes.
    pub fn hear_reporting(&mut self, side: Side, bytes: &[u8]) -> Report
        ensures heard { Hears side self.old bytes.now result.loss result.retake self.new }
        ensures loss_shown { IfSome result.loss (λ loss. CanBeShown loss.owed) }
        ensures retake_shown { IfSome result.retake (λ retake. CanBeShown retake.owed) }
    {
        match &self.ruled {
            None => self.played.hear_reporting(side, bytes),
            Some(_) => Report::nothing(),
        }
    }

    /// What a side owes. Returns `None` if the side is down or the match is over.
    pub fn owed(&self, side: Side) -> Option<Owed>
        ensures owed { result ≡ owed self.now side }
        ensures shown { IfSome result CanBeShown }
    {
        match &self.ruled {
            None => self.played.owed(side),
            Some(_) => None,
        }
    }

    /// Reports that the side is down: its stream ended, a read or write failed, or it exited. After a ruling nothing
    /// changes.
    pub fn lost(&mut self, side: Side)
        ensures { self.new ≡ lost self.old side }
    {
        if self.ruled.is_none() {
            self.played.lost(side);
        }
    }

    /// Ends the match: the side loses for this reason, or on time if the reason is empty.
    ///
    /// # Errors
    ///
    /// The match stays as it was, and the first of these that applies is returned: `Over` if the match is over, by its
    /// own verdict or by a ruling; `BadReason` if the reason isn't empty and isn't 1 to 20 letters (`a` to `z`, `A` to
    /// `Z`) and spaces, or is the reason of a forfeit: `refused play`, `no move`, `no vertex` or `illegal move`.
    pub fn adjudicate(&mut self, side: Side, reason: &[u8]) -> Result<(), RulingFault>
        ensures { AdjudicateCall side reason.now self.old self.new result }
    {
        if self.ruled.is_some() {
            return Err(RulingFault::Over);
        }
        if self.verdict().is_some() {
            return Err(RulingFault::Over);
        }
        let ruling = ruling_of(reason)?;
        self.ruled = Some(Ruled {
            loser: side,
            ruling,
        });
        Ok(())
    }
}

/// The ruling for this reason.
///
/// # Errors
///
/// `BadReason` if the text is neither empty nor a valid reason.
fn ruling_of(reason: &[u8]) -> Result<Ruling, RulingFault>
    ensures rules { IfOk result (Rules reason.now) }
    ensures refused { IfErr result (λ why. (why ≡ fault.BadReason)
        × (reason.now ≢ []) × (¬ IsReason reason.now)) }
{
    if reason.is_empty() {
        return Ok(Ruling::Time);
    }
    if !is_reason(reason) {
        return Err(RulingFault::BadReason);
    }
    Ok(Ruling::Reason(kept_reason(reason)))
}
