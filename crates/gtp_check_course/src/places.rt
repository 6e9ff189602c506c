//! Where a course is.
ghost use Rattle.std.specs.Prelude.{◌≡◌, ◌+◌, ◌<◌, ◌≤◌, false};
ghost use Rattle.gtp_check_course.specs.Places.{IsPlace, number, most_parts, most_stretches, most_steps};
ghost use Rattle.gtp_check_course.specs.Places.{first_place};
ghost use Rattle.gtp_check_course.specs.Places.{undo_place, next_step, next_stretch, next_part, next_lesson};

/// A step of a course: the numbers of the lesson, of its part, of the stretch in that and of the step in that. Each is
/// counted from 0.
#[derive(Clone, Copy, Debug, PartialEq, Eq)]
pub struct Place {
    /// The number of the lesson among those of the course.
    pub lesson: usize,
    /// The part of the lesson.
    pub part: u32,
    /// The stretch of the part.
    pub stretch: usize,
    /// The step of the stretch.
    pub step: u32,
    /// Whether the move of the step was asked, and has to be undone.
    pub undoing: bool,
}

impl Place {
    /// The first step of the first lesson.
    pub fn first() -> Place
        ensures { result ≡ first_place }
    {
        Place {
            lesson: 0,
            part: 0,
            stretch: 0,
            step: 0,
            undoing: false,
        }
    }

    /// Returns the number of the place in the order of the course.
    pub fn number(self) -> u32
        requires place { IsPlace self }
        requires lesson { self.lesson ≤ 15 }
        ensures { result ≡ number self }
    {
        67_200_000 * self.lesson as u32
            + 224_000 * self.part
            + 4_000 * self.stretch as u32
            + 2 * self.step
            + u32::from(self.undoing)
    }

    /// Returns the same step, with its move to be undone.
    pub fn undo(self) -> Place
        requires place { IsPlace self }
        requires fresh { self.undoing ≡ false }
        ensures exact { result ≡ undo_place self }
        ensures place { IsPlace result }
        ensures later { number self < number result }
    {
        Place {
            undoing: true,
            ..self
        }
    }

    /// Returns the next step of the stretch.
    pub fn next_step(self) -> Place
        requires place { IsPlace self }
        requires room { self.step + 1 < most_steps }
        ensures exact { result ≡ next_step self }
        ensures place { IsPlace result }
        ensures later { number self < number result }
    {
        Place {
            step: self.step + 1,
            undoing: false,
            ..self
        }
    }

    /// Returns the first step of the next stretch.
    pub fn next_stretch(self) -> Place
        requires place { IsPlace self }
        requires room { self.stretch + 1 < most_stretches }
        ensures exact { result ≡ next_stretch self }
        ensures place { IsPlace result }
        ensures later { number self < number result }
    {
        Place {
            stretch: self.stretch + 1,
            step: 0,
            undoing: false,
            ..self
        }
    }

    /// Returns the first step of the next part.
    pub fn next_part(self) -> Place
        requires place { IsPlace self }
        requires room { self.part + 1 < most_parts }
        ensures exact { result ≡ next_part self }
        ensures place { IsPlace result }
        ensures later { number self < number result }
    {
        Place {
            part: self.part + 1,
            stretch: 0,
            step: 0,
            undoing: false,
            ..self
        }
    }

    /// Returns the first step of the next lesson.
    pub fn next_lesson(self) -> Place
        requires place { IsPlace self }
        requires room { self.lesson + 1 ≤ 15 }
        ensures exact { result ≡ next_lesson self }
        ensures place { IsPlace result }
        ensures later { number self < number result }
    {
        Place {
            lesson: self.lesson + 1,
            ..Place::first()
        }
    }
}
