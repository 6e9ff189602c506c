//! Examples of lines, replies and commands, worked out by hand from docs/protocol.md.
mod lines;
mod replies;
mod reply_words;
mod written;
