//! The lessons of a course.
ghost use Rattle.std.specs.Prelude.{◌≡◌, ◌≤◌, length, map};
ghost use Rattle.gtp_check_course.specs.Places.{most_parts, most_stretches};
ghost use Rattle.gtp_check_course.specs.Lessons.{even_parts, is_in_pieces, name_of, number_of, parts_of};
ghost use Rattle.gtp_check_course.specs.Lessons.{errors_parts, komi_parts, placed_parts, start_parts};
ghost use Rattle.gtp_check_course.specs.Lessons.{stretches_of};
ghost use Rattle.gtp_check_course.specs.Scenes.{scenes_of};

use crate::scenes::{CAPTURES, JOINING, KO, SUICIDE, Scene, WAYS};
use crate::stretches::Stretch;
use crate::{errors, games, tables};
use arrayvec::ArrayVec;

/// How many lessons there are.
const ALL: usize = 15;

/// How many parts each scene has: in an even game all ways, and after a handicap the free ones.
const PARTS_OF_SCENE: u32 = 20;

/// The lessons of a course, in their order.
pub type Lessons = ArrayVec<Lesson, ALL>;

/// A lesson: a subject on which the engine is asked.
#[derive(Clone, Copy, Debug, PartialEq, Eq)]
pub enum Lesson {
    /// Some moves of the engine's own on the smallest board from 5x5 that it accepts, and that board after a restart.
    /// Then a few commands whose lines come in two chunks each, some moves whose colours are written in full, and
    /// `list_commands`.
    Start,
    /// The stones of the engine's own moves: whether each is on its point, and whose it is. For that the other colour
    /// surrounds it, which captures it if it has the colour that was asked for.
    Placed,
    /// What no engine can read, which has to fail and to change nothing, and commands that never fail.
    Errors,
    /// Each size from 1 to 25: whether the engine accepts it, each of its points, and two points that it doesn't have.
    /// Then the capture of all stones of a full board, which is undone with the moves before it, on some sizes with all
    /// of them.
    Sizes,
    /// Kos: who may retake, and when.
    Ko,
    /// Captures of one stone and of several, of one chain and of several, and retakes that no ko forbids.
    Captures,
    /// Moves that leave their own chain without a liberty.
    Suicide,
    /// Moves that join chains, and captures of chains that were joined.
    Joining,
    /// Each number of handicap stones on each size.
    Handicaps,
    /// Komis, and the score of an empty board, also after captures were undone, and after a handicap.
    Komi,
    /// Random games on several sizes, with probes.
    Drawn,
    /// Records of nearly 2,000 moves, and a ko after 1,010 passes, which is undone with some of them. Then a ko and 300
    /// passes after it.
    Record,
    /// Moves of the engine's own, on small boards up to a full one, with `undo` between. Then some on a board where
    /// White has no legal point, and the capture of all stones.
    Genmoves,
    /// Games in one process.
    Games,
    /// Games after a restart, with a `quit` and without.
    Restarts,
}

impl Default for Lesson {
    ghost use Rattle.gtp_check_course.specs.declared.lessons.Lesson.{Lesson};

    ghost is_default = { λ lesson. lesson ≡ Lesson.Start };

    /// The first lesson.
    fn default() -> Lesson {
        Lesson::Start
    }
}

/// All lessons, in the order of a course.
pub const LESSONS: [Lesson; ALL] = [
    Lesson::Start,
    Lesson::Placed,
    Lesson::Errors,
    Lesson::Sizes,
    Lesson::Ko,
    Lesson::Captures,
    Lesson::Suicide,
    Lesson::Joining,
    Lesson::Handicaps,
    Lesson::Komi,
    Lesson::Drawn,
    Lesson::Record,
    Lesson::Genmoves,
    Lesson::Games,
    Lesson::Restarts,
];

/// Their names, as a user writes them.
pub const LESSON_NAMES: [&str; ALL] = [
    "start",
    "placed",
    "errors",
    "sizes",
    "ko",
    "captures",
    "suicide",
    "joining",
    "handicaps",
    "komi",
    "drawn",
    "record",
    "genmoves",
    "games",
    "restarts",
];

impl Lesson {
    /// Returns the name.
    pub fn name(self) -> &'static str
        ensures { result.now ≡ name_of self }
    {
        LESSON_NAMES[self as usize]
    }

    /// Returns its number among all lessons, counted from 0.
    pub fn number(self) -> usize
        ensures number { result ≡ number_of self }
        ensures few { result ≤ 14 }
    {
        self as usize
    }

    /// Returns how many parts it has.
    pub fn parts(self) -> u32
        ensures parts { result ≡ parts_of self }
        ensures few { result ≤ most_parts }
    {
        match self {
            Lesson::Start => 4,
            Lesson::Placed => 4,
            Lesson::Errors => 4,
            Lesson::Sizes => 25,
            Lesson::Ko => 4 * PARTS_OF_SCENE,
            Lesson::Captures => 10 * PARTS_OF_SCENE,
            Lesson::Suicide => 5 * PARTS_OF_SCENE,
            Lesson::Joining => 4 * PARTS_OF_SCENE,
            Lesson::Handicaps => 300,
            Lesson::Komi => 19,
            Lesson::Drawn => 11,
            Lesson::Genmoves => 9,
            Lesson::Record => 3,
            Lesson::Games | Lesson::Restarts => 5,
        }
    }

    /// Returns how many of its parts, the first ones, have even games. The games of the others begin with a handicap.
    pub(crate) fn even_parts(self) -> u32
        ensures { result ≡ even_parts self }
    {
        match self {
            Lesson::Ko => 4 * WAYS,
            Lesson::Captures => 10 * WAYS,
            Lesson::Suicide => 5 * WAYS,
            Lesson::Joining => 4 * WAYS,
            _ => self.parts(),
        }
    }

    /// Returns whether the line of each command of this part, counted from 0, is sent in two chunks. A correct engine
    /// waits for the newline.
    pub fn is_in_pieces(self, part: u32) -> bool
        ensures { result ≡ is_in_pieces self part }
    {
        match self {
            Lesson::Start => part == 1,
            _ => false,
        }
    }

    /// Returns what this part of it, counted from 0, asks.
    pub(crate) fn stretches(self, part: u32) -> &'static [Stretch]
        ensures stretches { result.now ≡ stretches_of self part }
        ensures few { length result.now ≤ most_stretches }
    {
        match self {
            Lesson::Start => start_parts(part),
            Lesson::Placed => placed_parts(part),
            Lesson::Errors => errors_parts(part),
            Lesson::Sizes => &tables::SIZES,
            Lesson::Ko => &tables::KO,
            Lesson::Captures | Lesson::Joining => &tables::SCENE,
            Lesson::Suicide => &tables::REFUSED,
            Lesson::Handicaps => &tables::HANDICAPS,
            Lesson::Komi => komi_parts(part),
            Lesson::Drawn => &tables::DRAWN,
            Lesson::Record => &games::RECORD,
            Lesson::Genmoves => &games::GENMOVES,
            Lesson::Games => &games::GAMES,
            Lesson::Restarts => &games::RESTARTS,
        }
    }

    /// Returns its scenes. A lesson without scenes of its own has those of kos.
    pub(crate) fn scenes(self) -> &'static [Scene]
        ensures { map (λ scene. scene.now) result.now ≡ scenes_of self }
    {
        match self {
            Lesson::Captures => &CAPTURES,
            Lesson::Suicide => &SUICIDE,
            Lesson::Joining => &JOINING,
            _ => &KO,
        }
    }
}

/// Returns what this part of the first lesson asks.
fn start_parts(part: u32) -> &'static [Stretch]
    ensures stretches { result.now ≡ start_parts part }
    ensures few { length result.now ≤ most_stretches }
{
    match part {
        1 => &tables::PIECES,
        2 => &tables::IN_FULL,
        3 => &tables::LIST,
        _ => &tables::START,
    }
}

/// Returns what this part of the lesson about the engine's own moves asks.
fn placed_parts(part: u32) -> &'static [Stretch]
    ensures stretches { result.now ≡ placed_parts part }
    ensures few { length result.now ≤ most_stretches }
{
    match part {
        0 => &tables::PLACED,
        _ => &tables::PLACED_WITH_HANDICAP,
    }
}

/// Returns what this part of the lesson about komi asks.
fn komi_parts(part: u32) -> &'static [Stretch]
    ensures stretches { result.now ≡ komi_parts part }
    ensures few { length result.now ≤ most_stretches }
{
    if part < 16 {
        &tables::KOMI
    } else {
        &tables::KOMI_OF_HANDICAPS
    }
}

/// Returns what this part of the lesson about errors asks.
fn errors_parts(part: u32) -> &'static [Stretch]
    ensures stretches { result.now ≡ errors_parts part }
    ensures few { length result.now ≤ most_stretches }
{
    match part {
        1 => &errors::UNKNOWN,
        2 => &errors::NO_NUMBERS,
        3 => &errors::NO_MOVES,
        _ => &errors::REQUIRED,
    }
}
