//! Laws of the calls, for the exports and for their callers. Each is the contract of a function that does nothing.
ghost use Rattle.vintsaky_calls.specs.Laws.{SentWereWritten, WrittenWereSent, AddedNamesWait};
ghost use Rattle.vintsaky_calls.specs.Talks.{TalksAreRuns, BegunAreAlike};

/// A command that counts as sent was written. Whatever `send` returns, each side of a match has as many unanswered
/// commands as before, or one more; the buffer then begins with the line of that command, with its id and its words,
/// whatever is written after it. If `send` succeeds, the side that it names has one more.
pub fn sent_commands_were_written()
    ensures written { SentWereWritten }
    ensures counted { WrittenWereSent }
{}

/// A line with the name of a custom command waits for its author's answer, in every game: with or without an id, with
/// any arguments, in any engine that hasn't ended, waits for nothing and holds nothing back.
pub fn lines_of_added_names_wait()
    ensures { AddedNamesWait }
{}

/// If an engine is reset only before its first byte, it is the sans-IO engine of `gtp_session` with the ko rule that it
/// was reset to, or else simple ko: it is what some run of that engine comes to over the bytes that were used, with
/// some choices and answers of its author. An engine that is reset keeps nothing of what it was.
pub fn talks_are_runs()
    ensures runs { TalksAreRuns }
    ensures alike { BegunAreAlike }
{}
