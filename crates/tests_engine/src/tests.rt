//! Tests of values, lines and replies, the game, sessions and sans-IO engines.

mod base;
mod board;
mod sessions;
mod steps;
mod wire;
