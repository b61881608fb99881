// The calls on triangles.
ghost use Rattle.std.specs.Prelude.{◌≡◌};
ghost use Rattle.tree.specs.Calls;
ghost use Rattle.triangle.specs.Elements.{triangle};
ghost use Rattle.triangle.specs.Columns.{columns, family};
ghost use Rattle.results.specs.Results.{triangle_result, number_result, truth_result, compare_result};

use results::{CompareResult, NumberResult, TriangleResult};
use tree::columns::Columns;
use tree::element::Element;
use triangle::{Triangle, Triangles};

#[unsafe(no_mangle)]
pub extern "C" fn gw_triangle_at(level: u8, position: u64) -> TriangleResult
    ensures { result ≡ triangle_result (Calls.at triangle level position) }
{
    Triangle::at(level, position).into()
}

#[unsafe(no_mangle)]
pub extern "C" fn gw_triangle_position(e: Triangle) -> NumberResult
    ensures { result ≡ number_result (Calls.position triangle e) }
{
    e.position().into()
}

#[unsafe(no_mangle)]
pub extern "C" fn gw_triangle_parent(e: Triangle) -> TriangleResult
    ensures { result ≡ triangle_result (Calls.parent triangle e) }
{
    e.parent().into()
}

#[unsafe(no_mangle)]
pub extern "C" fn gw_triangle_child(e: Triangle, number: u8) -> TriangleResult
    ensures { result ≡ triangle_result (Calls.child triangle e number) }
{
    e.child(number).into()
}

#[unsafe(no_mangle)]
pub extern "C" fn gw_triangle_successor(e: Triangle) -> TriangleResult
    ensures { result ≡ triangle_result (Calls.successor triangle e) }
{
    e.successor().into()
}

#[unsafe(no_mangle)]
pub extern "C" fn gw_triangle_first_descendant(e: Triangle, level: u8) -> TriangleResult
    ensures { result ≡ triangle_result (Calls.first triangle e level) }
{
    e.first_descendant(level).into()
}

#[unsafe(no_mangle)]
pub extern "C" fn gw_triangle_last_descendant(e: Triangle, level: u8) -> TriangleResult
    ensures { result ≡ triangle_result (Calls.last triangle e level) }
{
    e.last_descendant(level).into()
}

#[unsafe(no_mangle)]
pub extern "C" fn gw_triangle_neighbour(e: Triangle, face: u8) -> TriangleResult
    ensures { result ≡ triangle_result (Calls.neighbour triangle e face) }
{
    e.neighbour(face).into()
}

#[unsafe(no_mangle)]
pub extern "C" fn gw_triangle_compare(e: Triangle, f: Triangle) -> CompareResult
    ensures { result ≡ compare_result (Calls.order triangle e f) }
{
    e.compare(f).into()
}

#[unsafe(no_mangle)]
pub extern "C" fn gw_triangle_family(
    xs: &[u32],
    ys: &[u32],
    levels: &[u8],
    kinds: &[u8],
) -> NumberResult
    ensures { result ≡ truth_result (family (columns xs.now ys.now levels.now kinds.now)) }
{
    Triangles {
        xs,
        ys,
        levels,
        kinds,
    }
    .family()
    .into()
}
