//! Examples of values and their spellings, from the tables of docs/protocol.md.
mod handicaps;
mod komis;
mod texts;
mod values;
mod vertices;
