//! What the policies choose.
use crate::asserts::{assert_equal, assert_equal_for, assert_true, some};
use crate::tests::board::points::assert_points;
use crate::tests::board::{new_game, new_game_under, play_all};
use arrayvec::ArrayVec;
use go_base::{Colour, Point, Vertex};
use go_board::{Game, KoRule};
use gtp_session::book::{Book, Entry, MOST_ENTRIES};
use gtp_session::candidates::candidates;
use gtp_session::first::First;
use gtp_session::laws;
use gtp_session::policy::{Choice, Policy};
use gtp_session::random::Random;
use rand_core::{Rng, SeedableRng};
use rand_pcg::Pcg64;
use std::process::Abort;
use std::test::Fail;

/// A pass.
const PASS: Choice = Choice::Play(Vertex::Pass);

/// All points of a board of size 3.
const ALL: &str = "A1 B1 C1 A2 B2 C2 A3 B3 C3";

/// Moves on four points, after which White has just taken Black's stone on A1. The first move left that stone alone
/// there, so that positional ko forbids Black to put it there again.
const FOUR_POINTS: &str = "bA1 wB1 bA2 wB2 bA1 wA2";

/// The ko rule, the lines of the board, the moves, and the candidates after them, for either colour.
static CANDIDATES: [(KoRule, u32, &str, &str); 4] = [
    // They come row by row from the bottom.
    (KoRule::Simple, 3, "", ALL),
    // A1 is legal for Black, and its neighbours are Black's. For White it is suicide.
    (KoRule::Simple, 3, "bB1 bA2 bB2", "C1 C2 A3 B3 C3"),
    // A neighbour of White's makes it a candidate again, where it isn't suicide.
    (
        KoRule::Simple,
        3,
        "bB1 bA2 bB2 undo undo wA2",
        "A1 C1 B2 C2 A3 B3 C3",
    ),
    (KoRule::Positional, 2, FOUR_POINTS, ""),
];

#[test]
fn candidates_come_row_by_row_without_points_among_own_stones(rt: HostRuntime) {
    for (rule, lines, moves, names) in &CANDIDATES {
        let mut game = new_game_under(&rt, *lines, *rule);
        play_all(&rt, &mut game, moves);
        for colour in [Colour::Black, Colour::White] {
            assert_points(&rt, moves, &candidates(&game, colour), names);
        }
    }
    let mut game = new_game(&rt, 3);
    play_all(&rt, &mut game, "bB1 bA2 bB2");
    let a1 = some(&rt, Vertex::read(b"A1"));
    assert_true(&rt, game.legal(Colour::Black, a1));
}

/// The candidates, found by trying each column and row with each point of the board as a neighbour.
fn slow_candidates(game: &Game, colour: Colour) -> ArrayVec<Point, 625> {
    let mut found = ArrayVec::new();
    for row in 1..=25 {
        for column in 1..=25 {
            if let Some(point) = Point::new(column, row)
                && game.legal(colour, Vertex::At(point))
                && has_loose_neighbour(game, colour, point)
            {
                let _ = found.try_push(point);
            }
        }
    }
    found
}

/// Whether some point of the board that shares a side with this one holds no stone of the colour.
fn has_loose_neighbour(game: &Game, colour: Colour, point: Point) -> bool {
    for row in 1..=game.size().get() {
        for column in 1..=game.size().get() {
            let apart = column.abs_diff(point.column()) + row.abs_diff(point.row());
            if apart == 1
                && let Some(other) = Point::new(column, row)
                && game.at(other) != Some(colour)
            {
                return true;
            }
        }
    }
    false
}

/// A seed, the lines of the board, and the number of random moves.
static DRAWN: [(u32, u32, u32); 6] = [
    (1, 1, 4),
    (2, 2, 20),
    (5, 5, 60),
    (25, 25, 8),
    (1, 5, 100),
    (4_294_967_295, 5, 100),
];

/// The candidate that the generator's next word selects; or a pass if there is none, which takes no word.
fn wanted_of(rt: &impl Abort, candidates: &[Point], words: &mut Pcg64) -> Vertex {
    if candidates.is_empty() {
        return Vertex::Pass;
    }
    let number = words.next_u64() % candidates.len() as u64;
    Vertex::At(some(rt, candidates.get(number as usize).copied()))
}

#[test]
fn random_takes_the_candidates_of_a_slow_search_that_the_words_of_its_seed_name(rt: HostRuntime) {
    for (seed, lines, moves) in &DRAWN {
        let mut game = new_game(&rt, *lines);
        let mut policy = Random::new(*seed);
        let mut words = Pcg64::seed_from_u64(u64::from(*seed));
        let mut colour = Colour::Black;
        for _ in 0..*moves {
            let found = candidates(&game, colour);
            let slow = slow_candidates(&game, colour);
            assert_equal_for(&rt, (seed, lines), found.as_slice(), slow.as_slice());
            let wanted = &wanted_of(&rt, &slow, &mut words);
            let choice = policy.choose(&game, colour);
            assert_equal_for(&rt, (seed, lines), choice, Choice::Play(*wanted));
            assert_equal_for(&rt, (seed, lines), game.play(colour, *wanted), Ok(()));
            colour = colour.other();
        }
    }
}

/// The ko rule, the lines of the board, moves after which Black has no candidate, and how often a choice is asked for.
static NO_CANDIDATE: [(KoRule, u32, &str, u32); 2] = [
    (KoRule::Simple, 1, "", 3),
    (KoRule::Positional, 2, FOUR_POINTS, 1),
];

#[test]
fn random_without_a_candidate_passes_and_draws_no_word(rt: HostRuntime) {
    let board = new_game(&rt, 19);
    let number = (Pcg64::seed_from_u64(1).next_u64() % 361) as u32;
    let point = some(&rt, Point::new(number % 19 + 1, number / 19 + 1));
    let first = &Choice::Play(Vertex::At(point));
    assert_equal(&rt, Random::new(1).choose(&board, Colour::Black), *first);
    for (rule, lines, moves, times) in &NO_CANDIDATE {
        let mut game = new_game_under(&rt, *lines, *rule);
        play_all(&rt, &mut game, moves);
        let mut policy = Random::new(1);
        for _ in 0..*times {
            let choice = policy.choose(&game, Colour::Black);
            assert_equal_for(&rt, moves, choice, PASS);
        }
        // The next choice is the one that the first word names.
        let choice = policy.choose(&board, Colour::Black);
        assert_equal_for(&rt, moves, choice, *first);
    }
}

/// Plays moves separated by spaces. After a `?` comes what the policy has to choose for the colour before it, which is
/// played too.
fn assert_plays<P: Policy>(rt: &impl Abort, policy: &mut P, game: &mut Game, moves: &str) {
    for word in moves.split_whitespace() {
        let [letter, b'?', wanted @ ..] = word.as_bytes() else {
            play_all(rt, game, word);
            continue;
        };
        let colour = some(rt, Colour::read(&[*letter]));
        let choice = policy.choose(game, colour);
        assert_equal_for(rt, (moves, word), Some(choice), Choice::read(wanted));
        if let Choice::Play(vertex) = &choice {
            assert_equal_for(rt, (moves, word), game.play(colour, *vertex), Ok(()));
        }
    }
}

/// The ko rule, the lines of the board, and what is played with the first policy.
static FIRST: [(KoRule, u32, &str); 2] = [
    (KoRule::Simple, 19, "b?A1 undo w?A1"),
    (KoRule::Positional, 2, "bA1 wB1 bA2 wB2 bA1 wA2 b?pass"),
];

/// A book, the ko rule, the lines of the board, and what is played with it.
static BOOKS: [(&str, KoRule, u32, &str); 5] = [
    // The length of the record selects the entry. Past the last entry it passes. After an undo it gives earlier entries
    // again.
    (
        "C3,,resign",
        KoRule::Simple,
        9,
        "b?C3 w?pass b?resign b?resign bpass w?pass undo undo w?resign",
    ),
    // It passes where its vertex isn't legal: on a stone, off the board, by suicide, and by positional ko.
    (
        "C3,C3,Z25,pass,D4",
        KoRule::Simple,
        9,
        "b?C3 b?pass b?pass b?pass b?D4 b?pass",
    ),
    (",,A1", KoRule::Simple, 9, "bB1 bA2 w?pass undo b?A1"),
    (
        ",,,,,,A1",
        KoRule::Positional,
        2,
        "bA1 wB1 bA2 wB2 bA1 wA2 b?pass",
    ),
    ("", KoRule::Simple, 9, "b?pass w?pass"),
];

#[test]
fn first_takes_a1_and_a_book_its_entry_or_they_pass(rt: HostRuntime) {
    for (rule, lines, moves) in &FIRST {
        let mut game = new_game_under(&rt, *lines, *rule);
        assert_plays(&rt, &mut First, &mut game, moves);
    }
    for (text, rule, lines, moves) in &BOOKS {
        let mut book = some(&rt, Book::read(text.as_bytes()));
        let mut game = new_game_under(&rt, *lines, *rule);
        assert_plays(&rt, &mut book, &mut game, moves);
    }
}

/// Texts that are no entry of a book.
static NO_ENTRIES: [&[u8]; 6] = [b" ", b"C3 ", b"D44", b"I5", b"resigns", b"C3;D4"];

#[test]
fn an_entry_is_a_vertex_resign_or_nothing_and_a_book_has_at_most_2000(
    rt: HostRuntime,
) -> Result<(), Fail> {
    let c3 = some(&rt, Vertex::read(b"C3"));
    let entries: [(&[u8], Entry); 4] = [
        (b"", Entry::Empty),
        (b"pAsS", Entry::Play(Vertex::Pass)),
        (b"ReSiGn", Entry::Resign),
        (b"c3", Entry::Play(c3)),
    ];
    for (text, entry) in entries {
        assert_equal_for(&rt, text, Entry::read(text), Some(entry));
    }
    for text in &NO_ENTRIES {
        assert_equal_for(&rt, text, Entry::read(text), None);
    }
    let mut text = Vec::new(rt.alloc());
    text.resize(MOST_ENTRIES - 1, b',')?;
    assert_true(&rt, Book::read(&text).is_some());
    text.extend_from_slice(b"resign")?;
    let mut book = some(&rt, Book::read(&text));
    let mut game = new_game(&rt, 1);
    for _ in 1..MOST_ENTRIES {
        assert_plays(&rt, &mut book, &mut game, "b?pass");
    }
    assert_plays(&rt, &mut book, &mut game, "b?resign");
    text.push(b',')?;
    assert_true(&rt, Book::read(&text).is_none());
    Ok(())
}

#[test]
fn the_laws_hold_of_a_policy(_rt: HostRuntime) {
    laws::texts_join::<First>();
    laws::genmoves_are_lawful::<First>();
    laws::each_reply_is_one::<First>();
    laws::each_line_is_answered_once::<First>();
    laws::genmoves_alone_count::<First>();
    laws::no_fault_changes_nothing::<First>();
}
