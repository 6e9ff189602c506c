//! Tests of the controller, of processes and of worlds.

mod controller;
mod processes;
mod shows;
mod worlds;
