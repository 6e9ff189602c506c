//! Numbers that represent colours, vertices and ko rules.
ghost use Rattle.std.specs.Prelude.{◌≡◌, ◌≢◌, ℕ, IfOk, IfErr};
ghost use Rattle.go_base.specs.Point.{IsOn};
ghost use Rattle.go_base.specs.Size.{most_size};
ghost use Rattle.go_base.specs.declared.vertices.Vertex.TheVariants.{At};
ghost use Rattle.vintsaky_calls.specs.Codes.{colour_code, rule_code, vertex_code, point_code, IsCodeOf};
ghost use Rattle.vintsaky_calls.specs.Codes.{NoColour, NoRule, NoVertex};
ghost use Rattle.vintsaky_calls.specs.declared.causes.Cause.TheVariants as cause;

use crate::causes::Cause;
use go_base::{Colour, Point, Vertex};
use go_board::KoRule;

/// The colour, or the side, of a number.
pub(crate) fn colour_of(number: u32) -> Result<Colour, Cause>
    ensures some { IfOk result (λ colour. number ≡ colour_code colour) }
    ensures none { IfErr result (λ why. (why ≡ cause.BadColour) × NoColour number) }
{
    match number {
        1 => Ok(Colour::Black),
        2 => Ok(Colour::White),
        _ => Err(Cause::BadColour),
    }
}

/// The number of a colour or a side.
pub(crate) fn number_of_colour(colour: Colour) -> u32
    ensures { result ≡ colour_code colour }
{
    match colour {
        Colour::Black => 1,
        Colour::White => 2,
    }
}

/// The ko rule of a number.
pub(crate) fn rule_of(number: u32) -> Result<KoRule, Cause>
    ensures some { IfOk result (λ rule. number ≡ rule_code rule) }
    ensures none { IfErr result (λ why. (why ≡ cause.BadRule) × NoRule number) }
{
    match number {
        1 => Ok(KoRule::Simple),
        2 => Ok(KoRule::Positional),
        _ => Err(Cause::BadRule),
    }
}

/// The number of a ko rule.
pub(crate) fn number_of_rule(rule: KoRule) -> u32
    ensures { result ≡ rule_code rule }
{
    match rule {
        KoRule::Simple => 1,
        KoRule::Positional => 2,
    }
}

/// The vertex of a number.
pub(crate) fn vertex_of(number: u32) -> Result<Vertex, Cause>
    ensures some { IfOk result (λ vertex. IsCodeOf number vertex) }
    ensures none { IfErr result (λ why. (why ≡ cause.BadVertex) × NoVertex number) }
{
    if number == 0 {
        return Ok(Vertex::Pass);
    }
    let point = point_of(number)?;
    Ok(Vertex::At(point))
}

/// The point of a number.
pub(crate) fn point_of(number: u32) -> Result<Point, Cause>
    ensures some { IfOk result (λ point. IsCodeOf number (At point)) }
    ensures none { IfErr result (λ why. (why ≡ cause.BadVertex)
        × ((p : ℕ) → IsOn most_size p → number ≢ point_code p)) }
{
    Point::new(number % 256, number / 256).ok_or(Cause::BadVertex)
}

/// The number of a point.
pub(crate) fn number_of_point(point: Point) -> u32
    ensures { result ≡ point_code point }
{
    256 * point.row() + point.column()
}

/// The number of a vertex.
pub(crate) fn number_of_vertex(vertex: Vertex) -> u32
    ensures { result ≡ vertex_code vertex }
{
    match vertex {
        Vertex::Pass => 0,
        Vertex::At(point) => number_of_point(point),
    }
}
