//! Hashes of boards and positions, which are sums of keys.
ghost use Rattle.std.specs.Prelude.{◌≡◌, ◌<◌};
ghost use Rattle.go_board.specs.Board.{place_count};
ghost use Rattle.go_board.specs.Hash.{mixed, key, stone_key, key_of, size_key};
ghost use Rattle.go_board.specs.KeptHash.{HashesFollowPlays};
ghost use Rattle.go_board.specs.PositionHash.{mover_key, ko_key};

use crate::board::{Cell, PLACES, place_of};
use go_base::{Colour, Point, Size};

/// The factor by which numbers are multiplied before they are mixed: odd, and close to 2^64 divided by the golden
/// ratio.
const STEP: u64 = 0x9e37_79b9_7f4a_7c15;

/// The number of the first key of the colours to move, which come after those of the sizes.
const MOVERS: usize = 1430;

/// The number of the first key of the ko points.
const KO_POINTS: usize = 1432;

/// The key of a stone of this colour on a point: what the stone adds to `Game::board_hash`. So a play adds the key of
/// its stone to the hash and subtracts those of the stones that it captures, modulo 2^64.
pub fn stone_key(colour: Colour, point: Point) -> u64
    ensures key { result ≡ stone_key colour point }
    ensures kept { HashesFollowPlays }
{
    key_at(colour, place_of(point))
}

/// The key of a stone on a place.
#[inline]
#[tactic(auto, unfolding(crate::specs::Hash::stone_key))]
pub(crate) fn key_at(colour: Colour, place: usize) -> u64
    requires { place < place_count }
    ensures { result ≡ stone_key colour place }
{
    match colour {
        Colour::Black => key(2 * place),
        Colour::White => key(2 * place + 1),
    }
}

/// What a place with this content adds to the hash of its board.
#[inline]
pub(crate) fn key_of(cell: Cell, place: usize) -> u64
    requires { place < place_count }
    ensures { result ≡ key_of cell place }
{
    match cell {
        Cell::Black => key_at(Colour::Black, place),
        Cell::White => key_at(Colour::White, place),
        Cell::Empty | Cell::Edge => 0,
    }
}

/// What the size of a board adds to its hash.
#[tactic(auto, unfolding(crate::specs::Hash::size_key))]
pub(crate) fn size_key(size: Size) -> u64
    ensures { result ≡ size_key size }
{
    key(2 * PLACES + size.get() as usize)
}

/// What the colour to move adds to the hash of a position.
#[tactic(auto, unfolding(crate::specs::PositionHash::mover_key))]
pub(crate) fn mover_key(colour: Colour) -> u64
    ensures { result ≡ mover_key colour }
{
    match colour {
        Colour::Black => key(MOVERS),
        Colour::White => key(MOVERS + 1),
    }
}

/// What a ko point adds to the hash of a position.
#[tactic(auto, unfolding(crate::specs::PositionHash::ko_key))]
pub(crate) fn ko_key(point: Point) -> u64
    ensures { result ≡ ko_key point }
{
    key(KO_POINTS + place_of(point))
}

/// The key with this number.
#[inline]
#[tactic(auto, unfolding(crate::specs::Hash::key))]
fn key(number: usize) -> u64
    ensures { result ≡ key number }
{
    mixed((number as u64).wrapping_mul(STEP))
}

/// Mixes the bits of a number.
#[inline]
#[tactic(auto, unfolding(crate::specs::Hash::mixed))]
fn mixed(a: u64) -> u64
    ensures { result ≡ mixed a }
{
    let b = (a ^ (a >> 30)).wrapping_mul(0xbf58_476d_1ce4_e5b9);
    let c = (b ^ (b >> 27)).wrapping_mul(0x94d0_49bb_1331_11eb);
    c ^ (c >> 31)
}
