//! What was found so far.
ghost use Rattle.std.specs.Prelude.{◌≡◌, ◌-◌, ◌<◌, ◌||◌, nat_lt, not};
ghost use Rattle.gtp_check_app.specs.Tally.{alike, found, started_again, is_shown, nothing_found};
ghost use Rattle.gtp_check_app.specs.Tally.{with_hidden, with_unjudged};

use arrayvec::ArrayVec;
use gtp_check_course::Lesson;
use gtp_check_talk::Fault;

/// How many complaints of one kind are shown.
const MOST_SHOWN_ALIKE: usize = 3;

/// How many lessons there are.
const ALL: usize = 15;

/// How many faults are known at most. There are fewer kinds than a third of it.
const MOST_KNOWN: usize = 128;

/// The complaints so far.
#[derive(Drop)]
pub struct Tally {
    /// How many there are.
    pub complaints: u32,
    /// The faults whose complaints are shown.
    pub faults: ArrayVec<Fault, MOST_KNOWN>,
    /// How many of each lesson aren't shown, in the order of all lessons.
    pub hidden: [u32; ALL],
    /// How many restarts after complaints are left.
    pub starts_left: u32,
    /// Whether the next start comes after a complaint.
    pub is_after_fault: bool,
    /// Whether the first line has been written.
    pub has_first_line: bool,
    /// How many moves by `genmove` weren't judged.
    pub unjudged: u32,
}

impl Tally {
    /// The tally before the first start, with this many restarts after complaints.
    pub fn new(starts_left: u32) -> Tally
        ensures { result ≡ nothing_found starts_left }
    {
        Tally {
            complaints: 0,
            faults: ArrayVec::new(),
            hidden: [0; ALL],
            starts_left,
            is_after_fault: false,
            has_first_line: false,
            unjudged: 0,
        }
    }

    /// Counts a fault of a lesson. Returns whether its complaint is shown: three of each kind are, over all lessons.
    pub fn find(&mut self, lesson: Lesson, fault: Fault) -> bool
        ensures shown { result ≡ is_shown self.old fault }
        ensures found { self.new ≡ found self.old lesson fault }
    {
        let is_shown = self.alike(fault) < MOST_SHOWN_ALIKE;
        self.complaints = self.complaints.saturating_add(1);
        self.is_after_fault = true;
        if is_shown {
            let _ = self.faults.try_push(fault);
        } else {
            self.hide(lesson);
        }
        is_shown
    }

    /// How many complaints of this fault are shown.
    fn alike(&self, fault: Fault) -> usize
        ensures { result ≡ alike self.now.faults.items fault }
    {
        self.faults.iter().filter(|known| **known == fault).count()
    }

    /// Counts a complaint of a lesson that isn't shown.
    fn hide(&mut self, lesson: Lesson)
        ensures { self.new ≡ with_hidden self.old lesson }
    {
        let index = lesson.number();
        self.hidden[index] = self.hidden[index].saturating_add(1);
    }

    /// Counts a move that a `genmove` chose, which isn't judged.
    pub fn count_unjudged(&mut self)
        ensures { self.new ≡ with_unjudged self.old }
    {
        self.unjudged = self.unjudged.saturating_add(1);
    }

    /// Returns whether the engine may be started: after a complaint only if a restart is left.
    pub fn may_start(&self) -> bool
        ensures { result ≡ not self.now.is_after_fault || nat_lt 0 self.now.starts_left }
    {
        !self.is_after_fault || self.starts_left > 0
    }

    /// Notes a start of the engine. After a complaint it takes one of the restarts that are left.
    pub fn start(&mut self)
        ensures { self.new ≡ started_again self.old }
    {
        if self.is_after_fault {
            self.starts_left = self.starts_left.saturating_sub(1);
            self.is_after_fault = false;
        }
    }
}
