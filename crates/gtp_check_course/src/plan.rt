//! The plan of a check.
use crate::lessons::Lessons;
use crate::unasked::Unasked;
use go_base::Size;
use go_board::KoRule;

/// What a check does.
#[derive(Drop)]
pub struct Plan<'a> {
    /// The engine's program and its arguments.
    pub words: Vec<&'a str>,
    /// The board size for scenes, if it is given.
    pub scene_size: Option<Size>,
    /// The ko rule of a correct engine.
    pub rule: KoRule,
    /// What isn't asked.
    pub unasked: Unasked,
    /// The random seed.
    pub seed: u32,
    /// The lessons to run, in their order.
    pub lessons: Lessons,
    /// The lessons that are left out.
    pub left_out: Lessons,
    /// Whether to wait for each reply before the next command.
    pub singly: bool,
    /// How often the engine may be restarted after complaints.
    pub restarts: u32,
    /// How many trials may be made to shorten a conversation.
    pub trials: u32,
    /// Whether to show progress on standard error, which is a terminal then.
    pub shows_progress: bool,
}
