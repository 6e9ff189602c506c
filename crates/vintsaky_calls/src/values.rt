//! Colours, vertices and komis, and their texts.
ghost use Rattle.vintsaky_calls.specs.Values.{ReadColourCall, ColourTextCall, PointCall, ReadVertexCall};
ghost use Rattle.vintsaky_calls.specs.Values.{VertexTextCall, ReadKomiCall, KomiTextCall};

use crate::causes::Cause;
use crate::codes::{colour_of, number_of_colour, number_of_point, number_of_vertex, vertex_of};
use crate::texts::put;
use go_base::{Colour, Komi, Point, Vertex};

/// Implements `vintsaky_read_colour`.
pub fn read_colour(text: &[u8], colour: &mut u32) -> Result<(), Cause>
    ensures { ReadColourCall text.now colour.old colour.new result }
{
    let read = Colour::read(text).ok_or(Cause::BadText)?;
    *colour = number_of_colour(read);
    Ok(())
}

/// Implements `vintsaky_colour_text`.
pub fn colour_text(colour: u32, text: &mut [u8], count: &mut usize) -> Result<(), Cause>
    ensures { ColourTextCall colour text.old text.new count.old count.new result }
{
    let colour = colour_of(colour)?;
    *count = put(&[colour.write()], text);
    Ok(())
}

/// Implements `vintsaky_point`.
pub fn point(column: u32, row: u32, vertex: &mut u32) -> Result<(), Cause>
    ensures { PointCall column row vertex.old vertex.new result }
{
    let point = Point::new(column, row).ok_or(Cause::BadVertex)?;
    *vertex = number_of_point(point);
    Ok(())
}

/// Implements `vintsaky_read_vertex`.
pub fn read_vertex(text: &[u8], vertex: &mut u32) -> Result<(), Cause>
    ensures { ReadVertexCall text.now vertex.old vertex.new result }
{
    let read = Vertex::read(text).ok_or(Cause::BadText)?;
    *vertex = number_of_vertex(read);
    Ok(())
}

/// Implements `vintsaky_vertex_text`.
pub fn vertex_text(vertex: u32, text: &mut [u8], count: &mut usize) -> Result<(), Cause>
    ensures { VertexTextCall vertex text.old text.new count.old count.new result }
{
    let vertex = vertex_of(vertex)?;
    *count = put(&vertex.write(), text);
    Ok(())
}

/// Implements `vintsaky_read_komi`.
pub fn read_komi(text: &[u8], half_points: &mut i32) -> Result<(), Cause>
    ensures { ReadKomiCall text.now half_points.old half_points.new result }
{
    let read = Komi::read(text).ok_or(Cause::BadText)?;
    *half_points = read.half_points();
    Ok(())
}

/// Implements `vintsaky_komi_text`.
pub fn komi_text(half_points: i32, text: &mut [u8], count: &mut usize) -> Result<(), Cause>
    ensures { KomiTextCall half_points text.old text.new count.old count.new result }
{
    let komi = Komi::from_half_points(half_points).ok_or(Cause::BadKomi)?;
    *count = put(&komi.write(), text);
    Ok(())
}
