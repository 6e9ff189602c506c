//! Engines in memory that write answers before they are sent the commands.
ghost use Rattle.std.specs.Prelude.{⊤, None};

use crate::asserts::{assert_equal, assert_equal_for, assert_true, some, text_of};
use crate::tests::commands::command;
use byte_streams::CallFault;
use go_board::KoRule;
use gtp_check_course::{Lesson, Unasked};
use gtp_check_judge::{CheckCommand, Examiner, Kind};
use gtp_check_talk::engine::Room;
use gtp_check_talk::notes::Notes;
use gtp_check_talk::trial::{Trial, Tried, try_commands};
use gtp_check_talk::{Fault, Purpose};
use gtp_check_texts::complaint::{Complaint, complaint_text};
use gtp_check_texts::last_game::Shown;
use gtp_process::{Ending, Process, StartFault, Starter};
use std::process::Abort;
use std::test::Fail;

/// An engine that writes one of these texts a read, whatever it is sent. Its status is how many bytes it was sent.
struct Writes {
    texts: &'static [&'static [u8]],
    sent: u32,
}

impl Process for Writes {
    ghost taken = { λ _. None };

    ghost given = { λ _. None };

    ghost fails = { λ _ _ _. ⊤ };

    ghost succeeds = { λ _ _. ⊤ };

    ghost runs_out = { λ _ _. ⊤ };

    ghost leaves = { λ _ _. ⊤ };

    ghost flushed = { λ _. ⊤ };

    fn read(&mut self, buffer: &mut [u8]) -> Result<usize, CallFault> {
        let [text, later @ ..] = self.texts else {
            return Ok(0);
        };
        self.texts = later;
        let count = text.len().min(buffer.len());
        buffer[..count].copy_from_slice(&text[..count]);
        Ok(count)
    }

    fn write(&mut self, text: &[u8]) -> Result<usize, CallFault> {
        for _byte in text {
            self.sent = self.sent.saturating_add(1);
        }
        Ok(text.len())
    }

    fn flush(&mut self) -> Result<(), CallFault> {
        Ok(())
    }

    fn let_run_first(&self) {}

    fn let_read(&self) {}

    fn end(self) -> Ending {
        let Writes { texts: _, sent } = self;
        Ending::Status(sent)
    }
}

/// Starts such engines.
#[derive(Drop)]
struct Starts {
    texts: &'static [&'static [u8]],
}

impl Starter for Starts {
    type Process = Writes;

    ghost asked = { λ _. None };

    fn start(&mut self, _words: &[&str]) -> Result<Writes, StartFault> {
        Ok(Writes {
            texts: self.texts,
            sent: 0,
        })
    }
}

/// A trial of these commands on such an engine: the number of commands asked, and what was wrong, if anything.
fn trial_of<R: Abort + AllocGlobal>(
    rt: &R,
    texts: &'static [&'static [u8]],
    commands: &[CheckCommand],
    unasked: Unasked,
) -> (u32, Option<Tried>) {
    let purpose = Purpose {
        lesson: Lesson::Komi,
        part: 0,
    };
    let mut examiner = Examiner::new(KoRule::Simple, 1);
    assert_true(rt, examiner.may_start());
    let mut notes = Notes::new();
    let trial = Trial {
        alloc: rt.alloc(),
        words: &["engine"],
        commands,
        purpose,
        unasked,
    };
    let tried = try_commands(
        &trial,
        &mut Starts { texts },
        &mut examiner,
        &mut Room::new(),
        &mut notes,
    );
    (notes.commands, some(rt, tried.ok()))
}

/// The commands of these texts.
fn commands_of<R: Abort + AllocGlobal>(rt: &R, texts: &[&str]) -> Vec<CheckCommand> {
    let mut commands = Vec::new(rt.alloc());
    for text in texts {
        assert_true(rt, commands.push(command(rt, text)).is_ok());
    }
    commands
}

/// An engine that refuses to clear the board, by what it writes in its reads; how many bytes it was sent; and what is
/// shown after the rule.
struct Refusal {
    texts: &'static [&'static [u8]],
    sent: u32,
    after: &'static str,
}

/// The one writes both answers once it is sent the first command, so it is never sent the others. The other one writes
/// the second answer after it is sent those.
static REFUSALS: [Refusal; 2] = [
    Refusal {
        texts: &[b"=1\n\n?2 no\n\n"],
        sent: 14,
        after: "\n",
    },
    Refusal {
        texts: &[b"=1\n\n", b"?2 no\n\n"],
        sent: 45,
        after: "# asked before this answer was read:\n3 name\n4 version\n\n",
    },
];

/// What both show before.
const SHOWN: &str = "# 1 komi: \"2 clear_board\": it was refused
1 boardsize 5
2 clear_board
# it wrote: \"?2 no\\n\\n\"
# right: a board can be cleared at any time
";

#[test]
fn what_was_never_sent_is_not_shown(rt: HostRuntime) -> Result<(), Fail> {
    let commands = commands_of(&rt, &["boardsize 5", "clear_board", "name", "version"]);
    for refusal in &REFUSALS {
        let (count, tried) = trial_of(&rt, refusal.texts, commands.as_slice(), Unasked::default());
        assert_equal(&rt, count, 4);
        let tried = some(&rt, tried);
        assert_equal_for(&rt, refusal.after, tried.fault, Fault::Wrote(Kind::Refused));
        let said = &tried.said;
        assert_equal_for(
            &rt,
            refusal.after,
            said.ending,
            Ending::Status(refusal.sent),
        );
        let complaint = Complaint {
            number: 1,
            lesson: Lesson::Komi,
            fault: tried.fault,
            sent: said.sent.as_slice(),
            delivered: said.delivered,
            talk: said.talk.as_slice(),
            answered: tried.answered,
            wrote: said.wrote.as_slice(),
            ending: said.ending,
            is_positional: false,
            game: None,
            shown: Shown::Whole,
        };
        let text = complaint_text(rt.alloc(), &complaint)?;
        let shown = text_of(&rt, text.as_slice());
        let (before, after) = some(&rt, shown.split_at_checked(SHOWN.len()));
        assert_equal_for(&rt, refusal.after, before, SHOWN);
        assert_equal_for(&rt, refusal.after, after, refusal.after);
    }
    Ok(())
}

/// The answers to 36 commands, which an engine writes at once.
static ANSWERS: [&[u8]; 1] = [
    b"=1\n\n=2\n\n=3\n\n=4\n\n=5\n\n=6\n\n=7\n\n=8\n\n=9\n\n=10\n\n=11\n\n=12\n\n=13\n\n=14\n\n\
        =15\n\n=16\n\n=17\n\n=18\n\n=19\n\n=20\n\n=21\n\n=22\n\n=23\n\n=24\n\n=25\n\n=26\n\n\
        =27\n\n=28\n\n=29\n\n=30\n\n=31\n\n=32\n\n=33\n\n=34\n\n=35\n\n=36\n\n",
];

#[test]
fn a_trial_asks_all_of_an_engine_that_answers_before_it_is_asked(rt: HostRuntime) {
    // The lines of 30 such commands fill the buffer of those that wait. The engine has then answered all that it was
    // asked.
    let mut commands = commands_of(&rt, &["boardsize 5"]);
    for _command in 0..35u32 {
        let known = command(&rt, "known_command fixed_handicap");
        assert_true(&rt, commands.push(known).is_ok());
    }
    let (count, tried) = trial_of(&rt, &ANSWERS, commands.as_slice(), Unasked::default());
    assert_true(&rt, tried.is_none());
    assert_equal(&rt, count, 36);
}

/// The answers to what is legal, and the refusal of what comes next.
static FIFTH_IS_REFUSED: [&[u8]; 1] = [b"=1\n\n=2\n\n=3\n\n=4\n\n?5 no\n\n=6\n\n"];

static EIGHTH_IS_REFUSED: [&[u8]; 1] = [
    b"=1\n\n=2\n\n=3\n\n=4\n\n=5\n\n=6\n\n=7\n\n?8 no\n\n=9\n\n",
];

/// White's two stones round A1, and Black's suicide there.
const SHUT_IN: [&str; 6] = [
    "boardsize 5",
    "clear_board",
    "play w A2",
    "play w B1",
    "play b A1",
    "name",
];

/// Black takes A1, and White would take B1 again.
const TAKEN_AGAIN: [&str; 9] = [
    "boardsize 5",
    "clear_board",
    "play b A2",
    "play w A1",
    "play w B2",
    "play w C1",
    "play b B1",
    "play w A1",
    "name",
];

#[test]
fn a_trial_is_over_before_what_is_not_asked(rt: HostRuntime) {
    let all = Unasked::default();
    let suicide = Unasked {
        suicide: true,
        ..all
    };
    let ko = Unasked { ko: true, ..all };
    let shut_in = commands_of(&rt, &SHUT_IN);
    let taken_again = commands_of(&rt, &TAKEN_AGAIN);
    for (unasked, few, many) in [(all, 6, 9), (suicide, 4, 9), (ko, 6, 7)] {
        let (count, tried) = trial_of(&rt, &FIFTH_IS_REFUSED, shut_in.as_slice(), unasked);
        assert_true(&rt, tried.is_none());
        assert_equal(&rt, count, few);
        let (count, tried) = trial_of(&rt, &EIGHTH_IS_REFUSED, taken_again.as_slice(), unasked);
        assert_true(&rt, tried.is_none());
        assert_equal(&rt, count, many);
    }
}
