// The calls on corner points.
ghost use Rattle.std.specs.Prelude.{◌≡◌};
ghost use Rattle.corners.specs.CornerPoints.{corner_point};
ghost use Rattle.corners.specs.Section.{point_columns};
ghost use Rattle.results.specs.Results.{point_result};
ghost use Rattle.interface.specs.Calls.{PointsResult};

use corners::Root;
use results::PointResult;

// The point of a corner of the element of a level at a position, in the root with these six corners.
#[unsafe(no_mangle)]
pub extern "C" fn gw_corner_point(level: u8, position: u64, corner: u8, root: Root) -> PointResult
    ensures { result ≡ point_result (corner_point level position corner root) }
{
    corners::corner_point(level, position, corner, root).into()
}

// The points of a corner at each of some positions of one level, one coordinate a column.
#[unsafe(no_mangle)]
pub extern "C" fn gw_corner_points(
    level: u8,
    positions: &[u64],
    corner: u8,
    root: Root,
    xs: &mut [f64],
    ys: &mut [f64],
    zs: &mut [f64],
) -> u64
    ensures { PointsResult level positions.now corner root result
        (point_columns xs.old ys.old zs.old)
        (point_columns xs.new ys.new zs.new) }
{
    results::of_pass(corners::corner_points(level, positions, corner, root, xs, ys, zs))
}
