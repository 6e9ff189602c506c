//! The reduction of a conversation to a shorter one.
ghost use Rattle.std.specs.Prelude.{◌≡◌, true, IfOk, IsSome, option_map};
ghost use Rattle.gtp_check_shortening.specs.Reduction.{after_failure, after_success, begun, has_next, is_minimal, next};

use crate::limits::Limits;
use crate::parts::{
    Part, before_last, end_after, first_part, leave_out, part_end, part_from, without,
};
use gtp_check_judge::CheckCommand;
use std::alloc::{AllocError, Global};
use std::marker::Model;

/// Makes a conversation shorter: it says which commands to try next, and keeps the shortest conversation so far.
///
/// ```text
/// let mut reduction = Reduction::new(alloc, commands, limits)?;
/// while let Some(trial) = reduction.next(alloc)? {
///     // ask the commands of the trial on a new start
///     if it ended by the same wrong answer {
///         reduction.succeeded(answered, asked);
///     } else {
///         reduction.failed(asked);
///     }
/// }
/// ```
#[derive(Drop)]
pub struct Reduction {
    commands: Vec<CheckCommand>,
    part: Part,
    in_vain: usize,
    left: Limits,
}

impl Model for Reduction {
    ghost use Rattle.gtp_check_shortening.specs.Reduction.{Reduction, IsSound};

    ghost Value = { Reduction };

    ghost view = { λ r. record {
      commands = r.commands.items;
      part = r.part;
      in_vain = r.in_vain;
      left = r.left;
    } };

    ghost invariant = { λ r. IsSound (record {
      commands = r.commands.items;
      part = r.part;
      in_vain = r.in_vain;
      left = r.left;
    }) };
}

impl Reduction {
    /// Returns a reduction of these commands, the last of which was answered wrongly. Nothing was tried yet.
    ///
    /// # Errors
    ///
    /// If memory can't be allocated.
    pub fn new(
        alloc: Global,
        commands: &[CheckCommand],
        limits: Limits,
    ) -> Result<Reduction, AllocError>
        ensures { IfOk result (λ reduction. reduction ≡ begun commands.now limits) }
    {
        let part = first_part(commands);
        let mut all = Vec::new(alloc);
        all.extend_from_slice(commands)?;
        Ok(Reduction {
            commands: all,
            part,
            in_vain: 0,
            left: limits,
        })
    }

    /// Returns the shortest conversation so far.
    pub fn commands(&self) -> &[CheckCommand]
        ensures { result.now ≡ self.now.commands }
    {
        self.commands.as_slice()
    }

    /// Returns whether each command before the last was left out alone, in vain: then no single one can be left out.
    pub fn is_minimal(&self) -> bool
        ensures { result ≡ is_minimal self.now }
    {
        before_last(self.commands.as_slice()) <= self.in_vain
    }

    /// Returns the commands to try next: the shortest conversation without one of its parts. It returns `None` if no
    /// single command can be left out, if no trial is left, or if they are more commands than may still be asked.
    ///
    /// # Errors
    ///
    /// If memory can't be allocated.
    pub fn next(&self, alloc: Global) -> Result<Option<Vec<CheckCommand>>, AllocError>
        ensures { IfOk result (λ trial. option_map (λ commands. commands.items) trial
            ≡ next self.now) }
    {
        if self.is_minimal() {
            return Ok(None);
        }
        let commands = self.commands.as_slice();
        let end = part_end(commands, self.part);
        let count = commands.len() - (end - self.part.place);
        if !self.left.allow(count) {
            return Ok(None);
        }
        let trial = without(alloc, commands, self.part.place, end)?;
        Ok(Some(trial))
    }

    /// Notes that the trial, in which `asked` commands were asked, didn't end with the same wrong reply.
    pub fn failed(&mut self, asked: usize)
        requires { IsSome (next self.old) }
        ensures { self.new ≡ after_failure asked self.old }
    {
        let commands = self.commands.as_slice();
        let tried = Part {
            place: part_end(commands, self.part),
            size: self.part.size,
        };
        let part = part_from(commands, tried);
        if self.part.size == 1 {
            self.in_vain += 1;
        }
        self.part = part;
        self.left = self.left.after(asked);
    }

    /// Notes that the trial, in which `asked` commands were asked, ended with the same wrong reply, after `answered`
    /// correct ones.
    pub fn succeeded(&mut self, answered: usize, asked: usize)
        requires { IsSome (next self.old) }
        ensures { self.new ≡ after_success answered asked self.old }
    {
        let end = part_end(self.commands.as_slice(), self.part);
        leave_out(&mut self.commands, self.part.place, end);
        end_after(&mut self.commands, answered);
        self.part = part_from(self.commands.as_slice(), self.part);
        self.in_vain = 0;
        self.left = self.left.after(asked);
    }
}
