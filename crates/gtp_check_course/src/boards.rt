//! The boards, komis and scenes on which each part of a lesson is asked.
ghost use Rattle.std.specs.Prelude.{◌≡◌, ◌+◌, ◌<◌, slice_index_or};
ghost use Rattle.gtp_check_course.specs.Places.{most_parts};
ghost use Rattle.gtp_check_course.specs.Boards.{IsBoard, lines_from, lines_of, size_or, komi_of, stones_of};
ghost use Rattle.gtp_check_course.specs.Boards.{inexact_komi_of, scene_size_or_least, turning_of};
ghost use Rattle.gtp_check_course.specs.Boards.{lines_of_scene};
ghost use Rattle.gtp_check_course.specs.Scenes.{gaps_of, has_handicap, scene_number, scene_of};

use crate::lessons::Lesson;
use crate::scenes::{FREE_WAYS, Gaps, KO_GAPS, Scene, WAYS, Way};
use go_base::{Komi, Size};

/// The board sizes of the random games, of the games with moves of the engine's own, of the long records, and of the
/// games in one process. After them comes the size of scenes, which the engine accepts.
const DRAWN: [u32; 10] = [9, 5, 3, 13, 19, 7, 25, 2, 4, 1];

const GENMOVES: [u32; 8] = [5, 9, 1, 2, 3, 7, 13, 19];

const RECORD: [u32; 2] = [9, 19];

const GAMES: [u32; 4] = [9, 5, 13, 19];

/// The board sizes on which komi and the engine's own moves are looked at after a handicap.
const HANDICAPPED: [u32; 3] = [9, 13, 19];

/// Komis in half points. A float of 32 bits represents each of them. The first ten are from -1000 to 1000 points:
/// scores are compared with these. The others test that the engine accepts them, and that its scores can be read.
const KOMIS: [i32; 16] = [
    13, 0, -7, 15, 1, -1, 1999, -14, 201, -1471, -16777216, 2000000, 16777215, -16777215, 200001,
    -65537,
];

/// Komis in half points that no float of 32 bits represents.
const INEXACT_KOMIS: [i32; 4] = [16777217, -1999999999, -16777217, 1999999999];

/// What a part of a lesson is asked on.
#[derive(Clone, Copy, Debug, PartialEq, Eq)]
pub struct Board {
    /// The board size.
    pub size: Size,
    /// The board size of a later game.
    pub other_size: Size,
    /// Whether the size of scenes isn't known yet.
    pub is_sought: bool,
    /// The komi.
    pub komi: Komi,
    /// The komi of a later game.
    pub other_komi: Komi,
    /// A komi that no float of 32 bits represents.
    pub inexact_komi: Komi,
    /// The number of handicap stones.
    pub stones: u32,
    /// The scene.
    pub scene: Scene,
    /// The points that stay empty beside it, if it is a ko.
    pub gaps: Gaps,
    /// How the scene is turned.
    pub way: Way,
    /// Whether the games of the scene begin with a handicap of two stones.
    pub has_handicap: bool,
}

/// Returns what a part of a lesson is asked on, with scenes on boards of this size, or of the smallest size if none is
/// known.
pub fn board_of(lesson: Lesson, part: u32, known: Option<Size>) -> Board
    requires { part < most_parts }
    ensures { IsBoard lesson part known result }
{
    let scene_size = size_or_least(known);
    Board {
        size: size_or(lines_of(lesson, part, scene_size), scene_size),
        other_size: scene_size,
        is_sought: known.is_none(),
        komi: komi_of(part),
        other_komi: komi_of(part + 2),
        inexact_komi: inexact_komi_of(part),
        stones: stones_of(lesson, part),
        scene: scene_of(lesson, part),
        gaps: gaps_of(lesson, part),
        way: Way::of(turning_of(lesson, part)),
        has_handicap: has_handicap(lesson, part),
    }
}

/// The number of the way in which a part is turned. The parts of `start` are not turned, so what they ask in chunks, or
/// with colours in full, was asked in the usual form before.
fn turning_of(lesson: Lesson, part: u32) -> u32
    ensures { result ≡ turning_of lesson part }
{
    match lesson {
        Lesson::Start => 0,
        _ if has_handicap(lesson, part) => FREE_WAYS[(part % 4) as usize],
        _ => part % WAYS,
    }
}

/// Returns whether the games of a part's scene begin with a handicap.
fn has_handicap(lesson: Lesson, part: u32) -> bool
    ensures { result ≡ has_handicap lesson part }
{
    part >= lesson.even_parts()
}

/// Returns the number of the scene of a part among those of the lesson.
fn scene_number(lesson: Lesson, part: u32) -> u32
    ensures { result ≡ scene_number lesson part }
{
    if has_handicap(lesson, part) {
        (part - lesson.even_parts()) / 4
    } else {
        part / WAYS
    }
}

/// Returns the size of the boards of scenes.
fn size_or_least(known: Option<Size>) -> Size
    ensures { result ≡ scene_size_or_least known }
{
    match known {
        Some(size) => size,
        None => least_size(),
    }
}

/// The smallest size of the boards of scenes.
fn least_size() -> Size
    ensures { result ≡ 5 }
{
    match Size::new(5) {
        Some(size) => size,
        None => unreachable!(),
    }
}

/// Returns the size that a part asks for.
fn lines_of(lesson: Lesson, part: u32, scene_size: Size) -> u32
    requires { part < most_parts }
    ensures { result ≡ lines_of lesson part scene_size }
{
    match lesson {
        Lesson::Start | Lesson::Errors => scene_size.get(),
        Lesson::Ko | Lesson::Captures | Lesson::Suicide | Lesson::Joining => {
            lines_of_scene(lesson, part, scene_size)
        }
        Lesson::Placed => lines_from(1, part, scene_size),
        Lesson::Komi => lines_from(16, part, scene_size),
        Lesson::Sizes => part + 1,
        Lesson::Handicaps => part / 12 + 1,
        Lesson::Drawn => entry_or(&DRAWN, part, scene_size),
        Lesson::Record => entry_or(&RECORD, part, scene_size),
        Lesson::Genmoves => entry_or(&GENMOVES, part, scene_size),
        Lesson::Games | Lesson::Restarts => entry_or(&GAMES, part, scene_size),
    }
}

/// Returns the size of a part: before the part of this number that of scenes, and from then on one that has handicaps.
fn lines_from(first: u32, part: u32, scene_size: Size) -> u32
    ensures { result ≡ lines_from first part scene_size }
{
    if part < first {
        scene_size.get()
    } else {
        entry_or(&HANDICAPPED, part - first, scene_size)
    }
}

/// Returns the size of the board of a part's scene. With a handicap it has at least nine lines: there the stones of the
/// handicap are not in the scene's corner.
fn lines_of_scene(lesson: Lesson, part: u32, scene_size: Size) -> u32
    ensures { result ≡ lines_of_scene lesson part scene_size }
{
    if has_handicap(lesson, part) {
        scene_size.get().max(9)
    } else {
        scene_size.get()
    }
}

/// Returns the entry of this number, or this size after the last entry.
fn entry_or(entries: &[u32], number: u32, size: Size) -> u32
    ensures { result ≡ slice_index_or entries.now number size }
{
    match entries.get(number as usize) {
        Some(entry) => *entry,
        None => size.get(),
    }
}

/// Returns the size of this number, or the other if there is none.
fn size_or(lines: u32, other: Size) -> Size
    ensures { result ≡ size_or lines other }
{
    match Size::new(lines) {
        Some(size) => size,
        None => other,
    }
}

/// Returns the komi of this number.
fn komi_of(number: u32) -> Komi
    ensures { result ≡ komi_of number }
{
    match Komi::from_half_points(KOMIS[(number % 16) as usize]) {
        Some(komi) => komi,
        None => unreachable!(),
    }
}

/// Returns a komi that no float of 32 bits represents.
fn inexact_komi_of(part: u32) -> Komi
    ensures { result ≡ inexact_komi_of part }
{
    match Komi::from_half_points(INEXACT_KOMIS[(part % 4) as usize]) {
        Some(komi) => komi,
        None => unreachable!(),
    }
}

/// Returns how many handicap stones a part asks for.
fn stones_of(lesson: Lesson, part: u32) -> u32
    ensures { result ≡ stones_of lesson part }
{
    match lesson {
        Lesson::Handicaps => part % 12,
        _ => 2 + part % 3,
    }
}

/// Returns the scene of a part.
fn scene_of(lesson: Lesson, part: u32) -> Scene
    ensures { result.now ≡ scene_of lesson part }
{
    match lesson.scenes().get(scene_number(lesson, part) as usize) {
        Some(scene) => *scene,
        None => &[],
    }
}

/// Returns what stays empty beside the ko of a part.
fn gaps_of(lesson: Lesson, part: u32) -> Gaps
    ensures { result ≡ gaps_of lesson part }
{
    match KO_GAPS.get(scene_number(lesson, part) as usize) {
        Some(gaps) => *gaps,
        None => Gaps {
            first: (1, 3),
            second: (1, 3),
        },
    }
}
