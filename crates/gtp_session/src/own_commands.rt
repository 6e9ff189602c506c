//! Custom commands.
ghost use Rattle.std.specs.Prelude.{◌≡◌, ℕ, ◌≤◌, List, [], ◌∷◌, ◌++◌, length, IfSome, IfNone, MatchOption, OnOk};
ghost use Rattle.std.specs.Prelude.{OnErr, IfErr};
ghost use Rattle.std.specs.Char.{is_ascii_digit};
ghost use Rattle.std.specs.List.{list_all};
ghost use Rattle.std.specs.Str.{bytes_eq};
ghost use Rattle.gtp_session.specs.OwnCommands.{IsOwnName, RefusesName, is_name_byte};

use crate::commands::{CommandName, all_names};
use crate::events::CommandFault;
use arrayvec::ArrayVec;
use go_base::{push, push_word};
use std::marker::Model;

/// The most custom commands of an engine.
const MOST_OWN_COMMANDS: usize = 32;

/// The most bytes of the name of a custom command.
const MOST_OWN_NAME_BYTES: usize = 32;

/// The buffer size for the names of all commands, each with a newline.
const ALL_NAMES_ROOM: usize = 1500;

/// The name of a custom command.
#[derive(Drop)]
struct OwnName {
    bytes: ArrayVec<u8, MOST_OWN_NAME_BYTES>,
}

impl Model for OwnName {
    ghost use Rattle.std.specs.Prelude.{List, ℕ};

    ghost Value = { List ℕ };

    ghost view = { λ n. n.bytes.items };
}

impl Default for OwnName {
    ghost use Rattle.std.specs.Prelude.{◌≡◌, []};

    ghost is_default = { λ n. n ≡ [] };

    fn default() -> OwnName {
        OwnName {
            bytes: ArrayVec::new(),
        }
    }
}

impl OwnName {
    /// Returns a name of these bytes.
    fn new(name: &[u8]) -> OwnName
        requires { length name.now ≤ 32 }
        ensures { result ≡ name.now }
    {
        let mut bytes = ArrayVec::new();
        push(&mut bytes, name);
        OwnName { bytes }
    }

    /// Whether it is this name.
    fn is(&self, name: &[u8]) -> bool
        ensures { result ≡ bytes_eq self.now name.now }
    {
        self.bytes.as_slice() == name
    }
}

/// The names of an author's custom commands, in the order in which they were added.
#[derive(Drop)]
pub(crate) struct OwnCommands {
    names: ArrayVec<OwnName, MOST_OWN_COMMANDS>,
}

impl Model for OwnCommands {
    ghost use Rattle.std.specs.Prelude.{List, ℕ};
    ghost use Rattle.gtp_session.specs.OwnCommands.{AreOwnCommands};

    ghost Value = { List (List ℕ) };

    ghost view = { λ c. c.names.items };

    ghost invariant = { λ c. AreOwnCommands c.names.items };
}

impl OwnCommands {
    ghost use Rattle.gtp_session.specs.OwnCommands.{MayBeAdded, has_command, is_known, names_with};

    /// Returns an empty list.
    pub fn new() -> OwnCommands
        ensures { result ≡ [] }
    {
        OwnCommands {
            names: ArrayVec::new(),
        }
    }

    /// Whether one of them has this name.
    fn has(&self, name: &[u8]) -> bool
        ensures { result ≡ has_command self.now name.now }
    {
        self.names.iter().any(|own| own.is(name))
    }

    /// Whether the word is the name of a command of the table, or of a custom one.
    pub fn knows(&self, word: &[u8]) -> bool
        ensures { result ≡ is_known self.now word.now }
    {
        CommandName::read(word).is_some() || self.has(word)
    }

    /// Returns the names of the table's commands and then of the custom ones, a line each.
    pub fn listed(&self) -> ArrayVec<u8, ALL_NAMES_ROOM>
        ensures { result.items ≡ names_with self.now }
    {
        let mut text = ArrayVec::new();
        push(&mut text, &all_names());
        for name in self.names.as_slice() {
            push_word(&mut text, b'\n', &name.bytes);
        }
        text
    }

    /// Adds a command of this name after the others.
    ///
    /// # Errors
    ///
    /// The first reason not to add it, in the order of `CommandFault`. Nothing changes then.
    pub fn add(&mut self, name: &[u8]) -> Result<(), CommandFault>
        ensures new { OnOk result (self.new ≡ self.old ++ name.now ∷ []) }
        ensures added { OnOk result (MayBeAdded self.old name.now) }
        ensures kept { OnErr result (self.new ≡ self.old) }
        ensures why { IfErr result (RefusesName self.old name.now) }
    {
        if let Some(fault) = self.refusal(name) {
            return Err(fault);
        }
        self.names.push(OwnName::new(name));
        Ok(())
    }

    /// Returns why the name can't be added, if it can't.
    fn refusal(&self, name: &[u8]) -> Option<CommandFault>
        ensures { MatchOption result
            (MayBeAdded self.now name.now)
            (RefusesName self.now name.now) }
    {
        if let Some(fault) = word_fault(name) {
            return Some(fault);
        }
        if CommandName::read(name).is_some() {
            return Some(CommandFault::InTable);
        }
        if self.has(name) {
            return Some(CommandFault::AddedBefore);
        }
        if self.names.len() >= MOST_OWN_COMMANDS {
            return Some(CommandFault::TooMany);
        }
        None
    }
}

/// Returns why a custom command can't have this name, if it can't.
fn word_fault(name: &[u8]) -> Option<CommandFault>
    ensures none { IfNone result (IsOwnName name.now) }
    ensures some { IfSome result (λ fault.
        (commands : List (List ℕ)) → RefusesName commands name.now fault) }
{
    if name.is_empty() {
        return Some(CommandFault::BadLength);
    }
    if name.len() > MOST_OWN_NAME_BYTES {
        return Some(CommandFault::BadLength);
    }
    if !has_name_bytes(name) {
        return Some(CommandFault::BadByte);
    }
    if has_digits(name) {
        return Some(CommandFault::OnlyDigits);
    }
    None
}

/// Whether the name of a custom command may have all of these bytes.
fn has_name_bytes(name: &[u8]) -> bool
    ensures { result ≡ list_all is_name_byte name.now }
{
    name.iter().all(|byte| is_name_byte(*byte))
}

/// Whether all of these bytes are digits.
fn has_digits(name: &[u8]) -> bool
    ensures { result ≡ list_all is_ascii_digit name.now }
{
    name.iter().all(|byte| byte.is_ascii_digit())
}

/// Whether the name of a custom command may have this byte.
fn is_name_byte(byte: u8) -> bool
    ensures { result ≡ is_name_byte byte }
{
    b'!' <= byte && byte <= b'~' && byte != b'#'
}
