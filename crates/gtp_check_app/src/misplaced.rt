//! Options after the engine's command, which are a usage error: they stand before it, and its own are part of it.
ghost use Rattle.std.specs.Prelude.{◌≡◌, ◌≤◌, ◌++◌, true, map, IfOk, OnOk};
ghost use Rattle.gtp_check_app.specs.Misplaced.{Reports, command_at, has_words_after, is_before_command, is_option};
ghost use Rattle.gtp_check_app.specs.Misplaced.{misplaced_line, spaced, takes_value};

use crate::failure::NAME;
use crate::options::contains;
use byte_streams::{WriteOnce, write_or_break};
use cli::failure::Failure;
use std::alloc::{AllocError, Global};
use std::convert::AsStr;

/// The options that take a value.
static VALUED: [&str; 11] = [
    "--size",
    "--ko",
    "--suicide",
    "--score",
    "--seed",
    "--only",
    "--skip",
    "--restarts",
    "--trials",
    "--timeout",
    "--start-timeout",
];

/// The line up to the words as they should stand.
const BEGINNING: &[u8] = b"gtp_check: options stand before the engine's command: gtp_check";

/// Returns whether words follow on the engine's command. The first word is the program's name.
pub(crate) fn has_words_after<A: AsStr>(words: &[A]) -> bool
    ensures { result ≡ has_words_after (map A.text words.now) }
{
    command_at(words) < words.len().saturating_sub(1)
}

/// Reports that options follow on the engine's command, with the words as they should stand, and returns the status: 2,
/// or 3 if there was no memory for the line.
pub(crate) fn report_misplaced<A: AsStr, E: WriteOnce>(
    alloc: Global,
    words: &[A],
    errors: &mut E,
) -> u8
    requires { has_words_after (map A.text words.now) ≡ true }
    ensures { Reports E.WriteOnce (map A.text words.now) errors.old result errors.new }
{
    match misplaced_line(alloc, words) {
        Ok(line) => {
            write_or_break(errors, line.as_slice());
            2
        }
        Err(_) => Failure::OutOfMemory.report(NAME, errors),
    }
}

/// Returns the line about options after the engine's command.
fn misplaced_line<A: AsStr>(alloc: Global, words: &[A]) -> Result<Vec<u8>, AllocError>
    requires { has_words_after (map A.text words.now) ≡ true }
    ensures { IfOk result (λ line. line.items ≡ misplaced_line (map A.text words.now)) }
{
    let at = command_at(words);
    let mut line = Vec::new(alloc);
    line.extend_from_slice(BEGINNING)?;
    add_words(&mut line, &words[1..at])?;
    add_words(&mut line, &words[at + 1..])?;
    line.extend_from_slice(b" '")?;
    line.extend_from_slice(words[at].as_str().as_bytes())?;
    line.extend_from_slice(b"'\n")?;
    Ok(line)
}

/// Appends words, each after a space.
fn add_words<A: AsStr>(line: &mut Vec<u8>, words: &[A]) -> Result<(), AllocError>
    ensures { OnOk result (line.new.items ≡ line.old.items ++ spaced (map A.text words.now)) }
{
    for word in words {
        line.push(b' ')?;
        line.extend_from_slice(word.as_str().as_bytes())?;
    }
    Ok(())
}

/// Returns the index of the engine's command: of the first word after the program's name that is neither an option nor
/// the value of one. If there is none, it returns the number of words, but at least 1.
fn command_at<A: AsStr>(words: &[A]) -> usize
    ensures at { result ≡ command_at (map A.text words.now) }
    ensures after_name { 1 ≤ result }
{
    for index in 1..words.len() {
        if !is_before_command(words[index - 1].as_str(), words[index].as_str()) {
            return index;
        }
    }
    words.len().max(1)
}

/// Returns whether a word is an option, or the value of the one before.
fn is_before_command(last: &str, word: &str) -> bool
    ensures { result ≡ is_before_command last.now word.now }
{
    is_option(word) || takes_value(last)
}

/// Returns whether a word is an option.
fn is_option(word: &str) -> bool
    ensures { result ≡ is_option word.now }
{
    word.as_bytes().first() == Some(&b'-')
}

/// Returns whether a word is an option whose value is the next word.
fn takes_value(word: &str) -> bool
    ensures { result ≡ takes_value word.now }
{
    contains(VALUED.as_slice(), word)
}
