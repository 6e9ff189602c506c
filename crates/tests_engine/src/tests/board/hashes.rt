//! Hashes of boards and positions, and the keys of stones.
use super::{at, new_game, play_all, read_move};
use crate::asserts::{assert_equal_for, some};
use arrayvec::ArrayVec;
use go_base::{Colour, Komi, Size, Vertex};
use go_board::{Game, KoRule, stone_key};

/// A colour, a column, a row, and the key of such a stone: SplitMix64 from state 0 draws it after as many draws as
/// twice the point's place, and one more for White. (From a program in Python; its first draw is 0xe220a8397b1dcdaf, as
/// published.)
static KEYS: [(Colour, u32, u32, u64); 6] = [
    (Colour::Black, 1, 1, 0x03d6_8453_23ce_3c71),
    (Colour::White, 1, 1, 0xc952_c562_0043_c714),
    (Colour::Black, 2, 1, 0x9b19_6bca_844f_1705),
    (Colour::White, 19, 19, 0x9acb_73c6_3488_b544),
    (Colour::Black, 25, 25, 0x7594_deaa_71fe_ba98),
    (Colour::Black, 10, 10, 0x613a_9c99_235d_15be),
];

/// The lines of the board, the moves, and the hash of the board after them: the sum of the keys of its stones, and of
/// the draw after 1,404 draws and one for each line, which is the size's. (From that program too.)
static HASHES: [(u32, &str, u64); 6] = [
    (1, "", 0x027f_ad69_8852_6882),
    (25, "", 0xc26a_b6e3_2345_aabd),
    (19, "bpass wpass", 0x659b_14df_6488_360f),
    (19, "bA1", 0x6971_9932_8856_7280),
    (19, "bA1 wT19 bK10", 0x6577_a991_e03c_3d82),
    (19, "bA1 wT19 bK10 undo undo", 0x6971_9932_8856_7280),
];

/// White takes a ko.
const TAKEN: &str = "bA2 wC1 bB1 wB2 bD4 wA1";

/// The lines of the board, the moves, the colour to move, and the hash of that position: the draw after 1,430 draws is
/// added for Black and the next for White, and for a ko point that after 1,432 draws and one for each place before it.
/// (From that program.)
static POSITIONS: [(u32, &str, Colour, u64); 6] = [
    (1, "", Colour::Black, 0x91d0_acec_2798_7918),
    (1, "", Colour::White, 0xfbae_ce99_2f59_f0ad),
    (25, "bpass", Colour::White, 0xbb99_d812_ca4d_32e8),
    // White took a ko, so Black may not play B1 at once. White may.
    (4, TAKEN, Colour::Black, 0xe6b4_f71c_519b_0764),
    (4, TAKEN, Colour::White, 0x97c1_7cb8_a4bf_6a90),
    // After two passes no play recreates the board before the last of them.
    (
        4,
        "bA2 wC1 bB1 wB2 bD4 wA1 bpass wpass",
        Colour::Black,
        0x2de3_5b0b_9cfd_f2fb,
    ),
];

#[test]
fn each_key_and_each_hash(rt: HostRuntime) {
    for (colour, column, row, key) in &KEYS {
        let point = at(&rt, *column, *row);
        assert_equal_for(&rt, (column, row), stone_key(*colour, point), *key);
    }
    for (lines, moves, hash) in &HASHES {
        let mut game = new_game(&rt, *lines);
        play_all(&rt, &mut game, moves);
        assert_equal_for(&rt, moves, game.board_hash(), *hash);
    }
}

#[test]
fn a_position_has_the_colour_to_move_and_its_ko_point_in_its_hash(rt: HostRuntime) {
    for rule in [KoRule::Simple, KoRule::Positional] {
        for (lines, moves, to_move, hash) in &POSITIONS {
            let size = some(&rt, Size::new(*lines));
            let komi = some(&rt, Komi::from_half_points(0));
            let mut game = Game::with_rule(size, komi, rule);
            play_all(&rt, &mut game, moves);
            assert_equal_for(&rt, (moves, to_move), game.position_hash(*to_move), *hash);
        }
    }
}

/// Moves on a board of 4 lines each way, and how many stones the last of them captured.
static TAKEN_BY_LAST: [(&str, usize); 6] = [
    ("", 0),
    ("bA1", 0),
    ("bA1 wA2 wB1", 1),
    ("bA1 wA2 wB1 bpass", 0),
    ("bA1 bB1 wA2 wB2 wC1", 2),
    ("bA1 bB1 wA2 wB2 wC1 undo", 0),
];

#[test]
fn a_list_becomes_that_of_the_stones_taken_last(rt: HostRuntime) {
    let mut points = ArrayVec::new();
    for (moves, count) in &TAKEN_BY_LAST {
        let mut game = new_game(&rt, 4);
        play_all(&rt, &mut game, moves);
        game.taken_by_last_move_into(&mut points);
        assert_equal_for(&rt, moves, points.len(), *count);
        for (index, point) in points.iter().enumerate() {
            assert_equal_for(&rt, moves, *point, at(&rt, 1 + index as u32, 1));
        }
    }
}

#[test]
fn a_hash_is_kept_from_move_to_move_by_the_keys_of_stones(rt: HostRuntime) {
    let mut game = new_game(&rt, 4);
    let mut hash = game.board_hash();
    for word in "bA3 bB3 bC2 bC1 wA2 wB2 bA1 wB1 bA1 wpass wB1 wA2".split_whitespace() {
        let made = read_move(&rt, word);
        play_all(&rt, &mut game, word);
        if let Vertex::At(point) = &made.vertex {
            hash = hash.wrapping_add(stone_key(made.colour, *point));
        }
        for point in game.taken_by_last_move().iter() {
            assert_equal_for(&rt, word, game.at(*point), None);
            hash = hash.wrapping_sub(stone_key(made.colour.other(), *point));
        }
        assert_equal_for(&rt, word, hash, game.board_hash());
    }
}
