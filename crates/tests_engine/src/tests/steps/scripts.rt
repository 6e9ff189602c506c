//! What each call of a sans-IO engine returns, and what the engine shows afterwards.
use crate::asserts::{assert_equal_for, some};
use crate::tests::steps::{Taken, take};
use go_base::Colour;
use go_board::{KoRule, PlayFault};
use gtp_session::policy::Choice;
use gtp_session::steps::{
    AnswerFault, ChoiceFault, CommandFault, Event, NoTitle, Steps, StepsFed, Wait,
};
use std::process::Abort;

/// A call and what it returns, or something that the engine shows.
enum Step {
    /// This many lines, and the immediate reply to each, without the newlines at the end of both.
    Lines(u32, &'static [u8], &'static [u8]),
    /// A chunk, how many bytes of it are used, and the event.
    Feed(&'static [u8], usize, Event),
    /// A choice, as it is spelled.
    Choose(&'static [u8], Result<(), ChoiceFault>),
    /// Whether the answer is a success, and its text.
    Answer(bool, &'static [u8], Result<(), AnswerFault>),
    Decline(Result<(), AnswerFault>),
    /// The name of a custom command.
    Add(&'static [u8], Result<(), CommandFault>),
    Name(&'static [u8], Result<(), NoTitle>),
    Version(&'static [u8], Result<(), NoTitle>),
    /// The last reply, without the newlines that end it.
    Reply(&'static [u8]),
    Waits(Wait),
    /// The custom command that waits for its answer, if one does: its id, its name and its first argument.
    Line(Option<(Option<u32>, &'static [u8], &'static [u8])>),
    /// How many moves the record has.
    Moves(usize),
    Ended,
}

/// The last reply is this, without the newlines that end it.
fn assert_ends_reply(rt: &impl Abort, place: (&str, usize), steps: &Steps, reply: &[u8]) {
    let mut whole = Taken::new();
    take(rt, &mut whole, reply);
    take(rt, &mut whole, b"\n\n");
    assert_equal_for(rt, place, steps.reply(), whole.as_slice());
}

/// Asserts that the step at this place of its script does what it says.
fn assert_step(rt: &impl Abort, place: (&str, usize), steps: &mut Steps, step: &Step) {
    match step {
        Step::Lines(times, line, reply) => {
            for _ in 0..*times {
                let (used, event) = (line.len(), Event::More);
                assert_equal_for(rt, place, steps.feed(line), StepsFed { used, event });
                let (used, event) = (1, Event::Reply);
                assert_equal_for(rt, place, steps.feed(b"\n"), StepsFed { used, event });
                assert_ends_reply(rt, place, steps, reply);
            }
        }
        Step::Feed(input, used, event) => {
            let (used, event) = (*used, *event);
            assert_equal_for(rt, place, steps.feed(input), StepsFed { used, event });
        }
        Step::Choose(text, done) => {
            let choice = some(rt, Choice::read(text));
            assert_equal_for(rt, place, steps.choose(choice), *done);
        }
        Step::Answer(ok, text, done) => {
            assert_equal_for(rt, place, steps.answer(*ok, text), *done);
        }
        Step::Decline(done) => assert_equal_for(rt, place, steps.decline(), *done),
        Step::Add(name, done) => assert_equal_for(rt, place, steps.add_command(name), *done),
        Step::Name(text, done) => assert_equal_for(rt, place, steps.set_name(text), *done),
        Step::Version(text, done) => assert_equal_for(rt, place, steps.set_version(text), *done),
        Step::Reply(reply) => assert_ends_reply(rt, place, steps, reply),
        Step::Waits(wait) => assert_equal_for(rt, place, steps.wait(), *wait),
        Step::Line(wanted) => {
            let line = steps.line();
            assert_equal_for(rt, place, line.is_some(), wanted.is_some());
            if let (Some(line), Some((id, name, argument))) = (line, wanted) {
                assert_equal_for(rt, place, line.id(), *id);
                assert_equal_for(rt, place, line.word(0), Some(*name));
                assert_equal_for(rt, place, line.word(1), Some(*argument));
            }
        }
        Step::Moves(moves) => assert_equal_for(rt, place, steps.game().moves().len(), *moves),
        Step::Ended => assert_equal_for(rt, place, steps.ended(), true),
    }
}

/// What is shown, and the steps of a fresh engine.
static SCRIPTS: [(&str, &[Step]); 9] = [
    (
        "choices that are supplied are made",
        &[
            Step::Lines(1, b"boardsize 9", b"="),
            Step::Lines(1, b"genmove", b"? syntax error"),
            Step::Feed(b"genmove b\n", 10, Event::Asked(Colour::Black)),
            Step::Waits(Wait::Choice(Colour::Black)),
            Step::Choose(b"C3", Ok(())),
            Step::Reply(b"= C3"),
            Step::Waits(Wait::Nothing),
            Step::Feed(b"genmove w\n", 10, Event::Asked(Colour::White)),
            Step::Waits(Wait::Choice(Colour::White)),
            Step::Choose(b"pass", Ok(())),
            Step::Reply(b"= pass"),
            Step::Waits(Wait::Nothing),
            Step::Feed(b"genmove b\n", 10, Event::Asked(Colour::Black)),
            Step::Waits(Wait::Choice(Colour::Black)),
            Step::Choose(b"resign", Ok(())),
            Step::Reply(b"= resign"),
            Step::Waits(Wait::Nothing),
            Step::Lines(1, b"play b C3", b"? illegal move"),
            Step::Moves(2),
        ],
    ),
    (
        "a full record asks for no choice",
        &[
            Step::Lines(2000, b"play b pass", b"="),
            Step::Lines(1, b"genmove w", b"? record full"),
            Step::Lines(1, b"undo", b"="),
            Step::Feed(b"genmove w\n", 10, Event::Asked(Colour::White)),
        ],
    ),
    (
        "a quit is answered once",
        &[
            Step::Feed(b"3 quit\n4 name\n", 7, Event::Reply),
            Step::Reply(b"=3"),
            Step::Ended,
            Step::Feed(b"4 name\n", 0, Event::Ended),
            Step::Feed(b"", 0, Event::Ended),
            Step::Reply(b"=3"),
            Step::Choose(b"resign", Err(ChoiceFault::NotAsked)),
            Step::Answer(true, b"", Err(AnswerFault::NotAsked)),
            Step::Decline(Err(AnswerFault::NotAsked)),
        ],
    ),
    (
        "refused choices are still asked for",
        &[
            Step::Choose(b"resign", Err(ChoiceFault::NotAsked)),
            Step::Lines(1, b"boardsize 4", b"="),
            Step::Lines(1, b"play b A2", b"="),
            Step::Lines(1, b"play w C1", b"="),
            Step::Lines(1, b"play b B1", b"="),
            Step::Lines(1, b"play w B2", b"="),
            Step::Lines(1, b"play b D4", b"="),
            Step::Lines(1, b"play w A1", b"="),
            Step::Feed(b"5 genmove b\n6 undo\n", 12, Event::Asked(Colour::Black)),
            Step::Choose(b"E4", Err(ChoiceFault::Illegal(PlayFault::OffBoard))),
            Step::Waits(Wait::Choice(Colour::Black)),
            Step::Moves(6),
            Step::Choose(b"A2", Err(ChoiceFault::Illegal(PlayFault::Occupied))),
            Step::Waits(Wait::Choice(Colour::Black)),
            Step::Moves(6),
            Step::Choose(b"B1", Err(ChoiceFault::Illegal(PlayFault::Ko))),
            Step::Waits(Wait::Choice(Colour::Black)),
            Step::Moves(6),
            Step::Feed(b"6 undo\n", 0, Event::Asked(Colour::Black)),
            Step::Answer(true, b"B1", Err(AnswerFault::NotAsked)),
            Step::Decline(Err(AnswerFault::NotAsked)),
            Step::Choose(b"pass", Ok(())),
            Step::Reply(b"=5 pass"),
            Step::Choose(b"resign", Err(ChoiceFault::NotAsked)),
        ],
    ),
    (
        "suicide is refused",
        &[
            Step::Lines(1, b"boardsize 2", b"="),
            Step::Lines(1, b"play b B1", b"="),
            Step::Lines(1, b"play b A2", b"="),
            Step::Feed(b"genmove w\n", 10, Event::Asked(Colour::White)),
            Step::Choose(b"A1", Err(ChoiceFault::Illegal(PlayFault::Suicide))),
            Step::Waits(Wait::Choice(Colour::White)),
            Step::Moves(2),
        ],
    ),
    (
        "other commands are the author's",
        &[
            Step::Lines(1, b"play b D4", b"="),
            Step::Line(None),
            Step::Feed(b"7 time_left b 1 1\nundo\n", 18, Event::Other),
            Step::Line(Some((Some(7), b"time_left", b"b"))),
            Step::Feed(b"undo\n", 0, Event::Other),
            Step::Answer(true, b" soon", Err(AnswerFault::BadText)),
            Step::Answer(true, b"soon\n", Err(AnswerFault::BadText)),
            Step::Answer(true, b"a\n\nb", Err(AnswerFault::BadText)),
            Step::Answer(true, b"a\tb", Err(AnswerFault::BadText)),
            Step::Answer(true, &[b'x'; 2001], Err(AnswerFault::BadText)),
            Step::Choose(b"resign", Err(ChoiceFault::NotAsked)),
            Step::Answer(true, b"soon\nor later", Ok(())),
            Step::Reply(b"=7 soon\nor later"),
            Step::Answer(true, b"soon", Err(AnswerFault::NotAsked)),
            Step::Feed(b"PLAY b C3\n", 10, Event::Other),
            Step::Answer(false, b"", Ok(())),
            Step::Reply(b"?"),
            Step::Feed(b"8\n", 2, Event::Other),
            Step::Decline(Ok(())),
            Step::Reply(b"?8 unknown command"),
            Step::Moves(1),
        ],
    ),
    (
        "own commands are known",
        &[
            Step::Lines(1, b"known_command analyze", b"= false"),
            Step::Add(b"analyze", Ok(())),
            Step::Add(b"x-2", Ok(())),
            Step::Lines(1, b"known_command analyze", b"= true"),
            Step::Lines(1, b"known_command Analyze", b"= false"),
            Step::Lines(1, b"1 known_command undo", b"=1 true"),
            Step::Lines(1, b"known_command", b"? syntax error"),
            Step::Feed(b"9 analyze b\n", 12, Event::Other),
            Step::Answer(true, b"a text", Ok(())),
            Step::Reply(b"=9 a text"),
        ],
    ),
    (
        "names are refused by the first cause",
        &[
            Step::Add(b"analyze", Ok(())),
            Step::Add(b"", Err(CommandFault::BadLength)),
            Step::Add(&[b'#'; 33], Err(CommandFault::BadLength)),
            Step::Add(&[b'#'; 32], Err(CommandFault::BadByte)),
            Step::Add(b"two words", Err(CommandFault::BadByte)),
            Step::Add(b"1\n", Err(CommandFault::BadByte)),
            Step::Add(b"\xff", Err(CommandFault::BadByte)),
            Step::Add(b"0042", Err(CommandFault::OnlyDigits)),
            Step::Add(b"quit", Err(CommandFault::InTable)),
            Step::Add(b"analyze", Err(CommandFault::AddedBefore)),
            Step::Lines(1, b"known_command 0042", b"= false"),
            Step::Add(b"Quit", Ok(())),
        ],
    ),
    (
        "what is no title is refused",
        &[
            Step::Name(b"a\n\nb", Err(NoTitle)),
            Step::Version(b"a\n\nb", Err(NoTitle)),
            Step::Name(b" a", Err(NoTitle)),
            Step::Version(b" a", Err(NoTitle)),
            Step::Name(b"a\x7f", Err(NoTitle)),
            Step::Version(b"a\x7f", Err(NoTitle)),
            Step::Name(&[b'x'; 201], Err(NoTitle)),
            Step::Version(&[b'x'; 201], Err(NoTitle)),
            Step::Lines(1, b"name", b"= stepgo"),
            Step::Lines(1, b"version", b"= 1.0"),
            Step::Version(&[b'x'; 200], Ok(())),
            Step::Lines(1, b"name x", b"= stepgo"),
        ],
    ),
];

#[test]
fn each_call_of_a_script_is_done_or_refused(rt: HostRuntime) {
    for (case, script) in &SCRIPTS {
        let mut steps = Steps::new(KoRule::Simple);
        for (number, step) in script.iter().enumerate() {
            assert_step(&rt, (*case, number), &mut steps, step);
        }
    }
}
