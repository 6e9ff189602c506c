//! Tests of the judge and the course of a check, and of its texts, options and counts.

mod check;
mod commands;
mod course;
mod judge;
