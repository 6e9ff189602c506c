//! Colours, vertices and komis, and their texts.
ghost use Rattle.vintsaky_calls.specs.Codes.{Returns};
ghost use Rattle.vintsaky_calls.specs.Values.{ReadColourCall, ColourTextCall, PointCall, ReadVertexCall};
ghost use Rattle.vintsaky_calls.specs.Values.{VertexTextCall, ReadKomiCall, KomiTextCall};

use vintsaky_calls::{code_of, values};

/// Reads a colour: `b`, `w`, `black` or `white`, in upper or lower case or a mix of both.
///
/// # Errors
///
/// `BadText`. Nothing is written.
#[unsafe(no_mangle)]
pub extern "C" fn vintsaky_read_colour(text: &[u8], colour: &mut u32) -> u32
    ensures call { Returns result (ReadColourCall text.now colour.old colour.new) }
{
    code_of(values::read_colour(text, colour))
}

/// Writes a colour as the protocol spells it, `b` or `w`, and the length of that text.
///
/// # Errors
///
/// `BadColour`. Nothing is written.
#[unsafe(no_mangle)]
pub extern "C" fn vintsaky_colour_text(colour: u32, text: &mut [u8], count: &mut usize) -> u32
    ensures call { Returns result (ColourTextCall colour text.old text.new count.old count.new) }
{
    code_of(values::colour_text(colour, text, count))
}

/// Writes the number of the point at a column and a row, each from 1 to 25.
///
/// # Errors
///
/// `BadVertex`. Nothing is written.
#[unsafe(no_mangle)]
pub extern "C" fn vintsaky_point(column: u32, row: u32, vertex: &mut u32) -> u32
    ensures call { Returns result (PointCall column row vertex.old vertex.new) }
{
    code_of(values::point(column, row, vertex))
}

/// Reads a vertex as the protocol spells it: `pass`, or a column letter and a row number, in upper or lower case.
///
/// # Errors
///
/// `BadText`. Nothing is written.
#[unsafe(no_mangle)]
pub extern "C" fn vintsaky_read_vertex(text: &[u8], vertex: &mut u32) -> u32
    ensures call { Returns result (ReadVertexCall text.now vertex.old vertex.new) }
{
    code_of(values::read_vertex(text, vertex))
}

/// Writes a vertex as the protocol spells it, and the length of that text.
///
/// # Errors
///
/// `BadVertex`. Nothing is written.
#[unsafe(no_mangle)]
pub extern "C" fn vintsaky_vertex_text(vertex: u32, text: &mut [u8], count: &mut usize) -> u32
    ensures call { Returns result (VertexTextCall vertex text.old text.new count.old count.new) }
{
    code_of(values::vertex_text(vertex, text, count))
}

/// Reads a komi in points, as the protocol spells it, and writes it in half points.
///
/// # Errors
///
/// `BadText`. Nothing is written.
#[unsafe(no_mangle)]
pub extern "C" fn vintsaky_read_komi(text: &[u8], half_points: &mut i32) -> u32
    ensures call { Returns result (ReadKomiCall text.now half_points.old half_points.new) }
{
    code_of(values::read_komi(text, half_points))
}

/// Writes a komi, which is given in half points, as the protocol spells it in points, and the length of that text.
///
/// # Errors
///
/// `BadKomi`. Nothing is written.
#[unsafe(no_mangle)]
pub extern "C" fn vintsaky_komi_text(half_points: i32, text: &mut [u8], count: &mut usize) -> u32
    ensures call { Returns result (KomiTextCall half_points text.old text.new count.old count.new) }
{
    code_of(values::komi_text(half_points, text, count))
}
