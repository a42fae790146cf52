// The eight phases, as points of the plane at distance 1.
ghost use Rattle.std.specs.Prelude.{◌≡◌};
ghost use Rattle.channel.specs.Plane.{phase_point, apart};

use std::f64::consts::FRAC_1_SQRT_2;

// Both coordinates of the point an eighth of a turn from the first axis.
const DIAGONAL: f64 = FRAC_1_SQRT_2;

#[derive(Clone, Copy)]
pub struct Point {
    pub x: f64,
    pub y: f64,
}

// The point of an on-air index, an eighth of a turn for each.
pub(crate) fn point_of(index: u8) -> Point
    ensures { result ≡ phase_point index }
{
    let (x, y) = match index % 8 {
        0 => (1.0, 0.0),
        1 => (DIAGONAL, DIAGONAL),
        2 => (0.0, 1.0),
        3 => (-DIAGONAL, DIAGONAL),
        4 => (-1.0, 0.0),
        5 => (-DIAGONAL, -DIAGONAL),
        6 => (0.0, -1.0),
        _ => (DIAGONAL, -DIAGONAL),
    };
    Point { x, y }
}

// The square of the distance of two points.
pub(crate) fn square_apart(a: Point, b: Point) -> f64
    ensures { result ≡ apart a b }
{
    let x = a.x - b.x;
    let y = a.y - b.y;
    x * x + y * y
}
