//! What complaints say of worked positions.
use go_base::{Colour, Komi, Move, Size, Vertex};
use go_board::{Game, KoRule, PlayFault};
use gtp_check_course::Lesson;
use gtp_check_judge::{Cause, CheckCommand, Kind};
use gtp_check_talk::{Fault, Purpose, Said};
use gtp_check_texts::complaint::{Complaint, complaint_text};
use gtp_check_texts::last_game::Shown;
use gtp_check_texts::reasons::add_reason;
use gtp_check_texts::{add_board, first_line};
use gtp_process::Ending;
use gtp_wire::Command;
use std::alloc::AllocError;
use std::process::Abort;

/// Asserts that both are equal. (The message of a std assertion is proved again at each use, but a call isn't.)
fn assert_equal(rt: &impl Abort, left: &[u8], right: &[u8]) {
    assert_eq!(rt; left, right);
}

/// A move by its word, as `bA2`.
fn move_of(rt: &impl Abort, word: &str) -> Move {
    let (colour, vertex) = word
        .as_bytes()
        .split_first()
        .expect(rt, "a move has a colour");
    Move {
        colour: Colour::read(&[*colour]).expect(rt, "a colour is b or w"),
        vertex: Vertex::read(vertex).expect(rt, "a vertex follows the colour"),
    }
}

/// A size.
fn size_of(rt: &impl Abort, size: u32) -> Size {
    Size::new(size).expect(rt, "the size is 1 to 25")
}

/// A komi of so many half points.
fn komi_of(rt: &impl Abort, half_points: i32) -> Komi {
    Komi::from_half_points(half_points).expect(rt, "a komi may be so small")
}

/// The game of these moves on a board of this size.
fn played(rt: &impl Abort, size: u32, words: &str) -> Game {
    let size = size_of(rt, size);
    let komi = komi_of(rt, 0);
    let mut game = Game::with_rule(size, komi, KoRule::Simple);
    for word in words.split_whitespace() {
        let made = move_of(rt, word);
        game.play(made.colour, made.vertex)
            .expect(rt, "the moves are legal");
    }
    game
}

/// The reason is this one, where the command is this play.
fn assert_play(
    rt: &(impl Abort + AllocGlobal),
    moves: &str,
    word: &str,
    kind: Kind,
    reason: &[u8],
) {
    let game = played(rt, 5, moves);
    let command = CheckCommand::Match(Command::Play(move_of(rt, word)));
    assert_reason(rt, &game, &command, (kind, None), reason);
}

/// The reason is this one, for the kind and the vertex that was chosen.
fn assert_reason(
    rt: &(impl Abort + AllocGlobal),
    game: &Game,
    command: &CheckCommand,
    found: (Kind, Option<Vertex>),
    reason: &[u8],
) {
    let mut text = Vec::new(rt.alloc());
    let (kind, chosen) = found;
    add_reason(&mut text, game, command, kind, chosen).expect(rt, "memory is there");
    assert_equal(rt, &text, reason);
}

#[test]
fn a_capture_of_two_names_both(rt: HostRuntime) {
    assert_play(
        &rt,
        "bA2 wA1 bB2 wB1",
        "bC1",
        Kind::Refused,
        b"legal: it captures 2 stones of white: A1 B1",
    );
}

#[test]
fn a_ko_names_the_stone_that_took(rt: HostRuntime) {
    assert_play(
        &rt,
        "bA2 wC1 bB1 wB2 wA1",
        "bB1",
        Kind::Took(Cause::BadMove(PlayFault::Ko)),
        b"ko: A1 took the stone there in the move before; the board would be as before that move",
    );
}

#[test]
fn a_pass_that_lifts_a_ko_is_named(rt: HostRuntime) {
    assert_play(
        &rt,
        "bA2 wC1 bB1 wB2 wA1 bpass",
        "bB1",
        Kind::Refused,
        b"legal: it captures 1 stone of white: A1; the pass before it lifts the ko",
    );
    assert_play(
        &rt,
        "bA2 wA1 wpass",
        "bB1",
        Kind::Refused,
        b"legal: it captures 1 stone of white: A1",
    );
}

#[test]
fn the_move_that_emptied_a_point_is_named(rt: HostRuntime) {
    assert_play(
        &rt,
        "bA1 wA2 wB1 bE5",
        "wA1",
        Kind::Refused,
        b"legal: the point is empty since W B1 took its stone, the stone's chain has a liberty then, and no ko \
          forbids it",
    );
}

#[test]
fn a_suicide_has_the_stones_of_its_chain(rt: HostRuntime) {
    assert_play(
        &rt,
        "bA1 wA2 wB2 wC1",
        "bB1",
        Kind::Took(Cause::BadMove(PlayFault::Suicide)),
        b"suicide: the stone's chain of 2 stones would have no liberty",
    );
}

#[test]
fn a_chosen_point_has_a_stone(rt: HostRuntime) {
    let game = played(&rt, 5, "bA1 wC3");
    let command = CheckCommand::Match(Command::Genmove(Colour::Black));
    let kind = Kind::Unlawful(PlayFault::Occupied);
    let reason = b"the point has a stone of white";
    assert_reason(&rt, &game, &command, (kind, Vertex::read(b"c3")), reason);
}

#[test]
fn an_undo_names_the_last_move(rt: HostRuntime) {
    let game = played(&rt, 5, "bA1 wC3");
    let command = CheckCommand::Match(Command::Undo);
    let reason = b"there is a move to take back: W C3";
    assert_reason(&rt, &game, &command, (Kind::Refused, None), reason);
}

#[test]
fn a_board_is_drawn_with_its_stones(rt: HostRuntime) -> Result<(), AllocError> {
    let mut text = Vec::new(rt.alloc());
    add_board(&mut text, &played(&rt, 3, ""))?;
    assert_equal(&rt, &text, b"");
    add_board(&mut text, &played(&rt, 3, "bA1 wC3"))?;
    assert_equal(&rt, &text, b"# . . O 3\n# . . . 2\n# X . . 1\n# A B C\n");
    Ok(())
}

#[test]
fn junk_is_cut_at_its_newline(rt: HostRuntime) {
    assert_equal(&rt, first_line(b"ready\n= 1\n"), b"ready");
}

/// What an engine was asked on a board of this size, and the lines of that.
#[derive(Drop)]
struct Asked {
    size: Size,
    talk: Vec<Said>,
    sent: Vec<u8>,
}

impl Asked {
    /// A command asked by this line, after this many moves, of which this is the last.
    fn ask(
        &mut self,
        line: &str,
        command: CheckCommand,
        moves: usize,
        last: Option<Move>,
    ) -> Result<(), AllocError> {
        self.sent.extend_from_slice(line.as_bytes())?;
        self.sent.extend_from_slice(b"\n")?;
        let said = Said {
            command,
            purpose: Purpose {
                lesson: Lesson::Games,
                part: 0,
            },
            is_illegal: false,
            size: self.size,
            moves,
            last,
            end: self.sent.len(),
        };
        self.talk.extend_from_slice(&[said])
    }

    /// A command of a match is asked so.
    fn ask_match(
        &mut self,
        line: &str,
        command: Command,
        moves: usize,
        last: Option<Move>,
    ) -> Result<(), AllocError> {
        self.ask(line, CheckCommand::Match(command), moves, last)
    }
}

/// A game on 5x5, and the commands that set up a second one. The engine refuses the size 9.
fn first_game(rt: &(impl Abort + AllocGlobal)) -> Result<Asked, AllocError> {
    let alloc = rt.alloc();
    let mut asked = Asked {
        size: size_of(rt, 5),
        talk: Vec::new(alloc),
        sent: Vec::new(alloc),
    };
    asked.ask_match("1 komi 0.5", Command::Komi(komi_of(rt, 1)), 0, None)?;
    let taken = Command::Boardsize(size_of(rt, 5));
    asked.ask_match("2 boardsize 5", taken, 0, None)?;
    asked.ask_match("3 clear_board", Command::ClearBoard, 0, None)?;
    asked.ask_match("4 play b A1", Command::Play(move_of(rt, "bA1")), 0, None)?;
    let komi = Command::Komi(komi_of(rt, 13));
    asked.ask_match("5 komi 6.5", komi, 1, Some(move_of(rt, "bA1")))?;
    let refused = Command::Boardsize(size_of(rt, 9));
    asked.ask_match("6 boardsize 9", refused, 1, Some(move_of(rt, "bA1")))?;
    let clear = Command::ClearBoard;
    asked.ask_match("7 clear_board", clear, 1, Some(move_of(rt, "bA1")))?;
    Ok(asked)
}

/// Then a game in which the engine chooses two moves, and resigns.
fn two_games(rt: &(impl Abort + AllocGlobal)) -> Result<Asked, AllocError> {
    let mut asked = first_game(rt)?;
    asked.ask_match("8 genmove b", Command::Genmove(Colour::Black), 0, None)?;
    let in_full = CheckCommand::GenmoveInFull(Colour::White);
    asked.ask("9 genmove white", in_full, 1, Some(move_of(rt, "bC3")))?;
    let genmove = Command::Genmove(Colour::Black);
    asked.ask_match("10 genmove b", genmove, 2, Some(move_of(rt, "wpass")))?;
    let play = Command::Play(move_of(rt, "wD4"));
    asked.ask_match("11 play w D4", play, 2, Some(move_of(rt, "wpass")))?;
    asked.ask("12 name", CheckCommand::Name, 3, Some(move_of(rt, "wD4")))?;
    Ok(asked)
}

/// The block where the command with this number, counted from 0, was refused.
fn block_of(
    rt: &(impl Abort + AllocGlobal),
    asked: &Asked,
    answered: usize,
    shown: Shown,
) -> Result<Vec<u8>, AllocError> {
    complaint_text(
        rt.alloc(),
        &Complaint {
            number: 1,
            lesson: Lesson::Games,
            fault: Fault::Wrote(Kind::Refused),
            sent: asked.sent.as_slice(),
            delivered: asked.sent.len(),
            talk: asked.talk.as_slice(),
            answered,
            wrote: b"? no\n\n",
            ending: Ending::Running,
            is_positional: false,
            game: None,
            shown,
        },
    )
}

#[test]
fn the_last_game_has_its_size_its_komi_and_what_was_chosen(
    rt: HostRuntime,
) -> Result<(), AllocError> {
    let asked = two_games(&rt)?;
    let block = block_of(&rt, &asked, 10, Shown::LastGame)?;
    assert_equal(
        &rt,
        &block,
        b"# 1 games: \"11 play w D4\": it was refused
# earlier lines left out: 4 (--trials 0 shows them); this block alone may not show the mistake
2 boardsize 5
5 komi 6.5
7 clear_board
8 genmove b
# = C3
9 genmove white
# = pass
10 genmove b
# = resign
11 play w D4
# it wrote: \"? no\\n\\n\"
# right: the command succeeds
# asked before this answer was read:
12 name

",
    );
    Ok(())
}

#[test]
fn a_game_that_is_the_whole_conversation_leaves_nothing_out(
    rt: HostRuntime,
) -> Result<(), AllocError> {
    let asked = two_games(&rt)?;
    let block = block_of(&rt, &asked, 2, Shown::LastGame)?;
    assert_equal(
        &rt,
        &block,
        b"# 1 games: \"3 clear_board\": it was refused
1 komi 0.5
2 boardsize 5
3 clear_board
# it wrote: \"? no\\n\\n\"
# right: a board can be cleared at any time
# asked before this answer was read:
4 play b A1
5 komi 6.5
6 boardsize 9
7 clear_board
8 genmove b
9 genmove white
10 genmove b
11 play w D4
12 name

",
    );
    Ok(())
}

#[test]
fn a_whole_conversation_has_what_was_chosen(rt: HostRuntime) -> Result<(), AllocError> {
    let asked = two_games(&rt)?;
    let block = block_of(&rt, &asked, 9, Shown::Whole)?;
    assert_equal(
        &rt,
        &block,
        b"# 1 games: \"10 genmove b\": it was refused
1 komi 0.5
2 boardsize 5
3 clear_board
4 play b A1
5 komi 6.5
6 boardsize 9
7 clear_board
8 genmove b
# = C3
9 genmove white
# = pass
10 genmove b
# it wrote: \"? no\\n\\n\"
# right: the command succeeds
# asked before this answer was read:
11 play w D4
12 name

",
    );
    Ok(())
}
