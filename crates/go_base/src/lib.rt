//! The values of Go and of the protocol, and how they are written.
#![tactic(auto)]

mod choices;
mod colours;
mod handicaps;
mod ints;
mod komis;
pub mod laws;
mod moves;
mod points;
mod scores;
mod sizes;
mod texts;
mod vertices;

pub use choices::Choice;
pub use colours::{Colour, Side};
pub use handicaps::handicap;
pub use ints::{read_int, split_digits, write_int};
pub use komis::Komi;
pub use moves::Move;
pub use points::Point;
pub use scores::{write_half_points, write_score};
pub use sizes::Size;
pub use texts::{VERTICES_ROOM, push, push_vertex, push_word, write_vertices};
pub use vertices::Vertex;
