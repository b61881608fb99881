// The calls on lines.
ghost use Rattle.std.specs.Prelude.{◌≡◌};
ghost use Rattle.tree.specs.Calls;
ghost use Rattle.line.specs.Elements.{line};
ghost use Rattle.line.specs.Columns.{columns, family};
ghost use Rattle.results.specs.Results.{line_result, number_result, truth_result, compare_result};

use line::{Line, Lines};
use results::{CompareResult, LineResult, NumberResult};
use tree::columns::Columns;
use tree::element::Element;

#[unsafe(no_mangle)]
pub extern "C" fn gw_line_at(level: u8, position: u64) -> LineResult
    ensures { result ≡ line_result (Calls.at line level position) }
{
    Line::at(level, position).into()
}

#[unsafe(no_mangle)]
pub extern "C" fn gw_line_position(e: Line) -> NumberResult
    ensures { result ≡ number_result (Calls.position line e) }
{
    e.position().into()
}

#[unsafe(no_mangle)]
pub extern "C" fn gw_line_parent(e: Line) -> LineResult
    ensures { result ≡ line_result (Calls.parent line e) }
{
    e.parent().into()
}

#[unsafe(no_mangle)]
pub extern "C" fn gw_line_child(e: Line, number: u8) -> LineResult
    ensures { result ≡ line_result (Calls.child line e number) }
{
    e.child(number).into()
}

#[unsafe(no_mangle)]
pub extern "C" fn gw_line_successor(e: Line) -> LineResult
    ensures { result ≡ line_result (Calls.successor line e) }
{
    e.successor().into()
}

#[unsafe(no_mangle)]
pub extern "C" fn gw_line_first_descendant(e: Line, level: u8) -> LineResult
    ensures { result ≡ line_result (Calls.first line e level) }
{
    e.first_descendant(level).into()
}

#[unsafe(no_mangle)]
pub extern "C" fn gw_line_last_descendant(e: Line, level: u8) -> LineResult
    ensures { result ≡ line_result (Calls.last line e level) }
{
    e.last_descendant(level).into()
}

#[unsafe(no_mangle)]
pub extern "C" fn gw_line_neighbour(e: Line, face: u8) -> LineResult
    ensures { result ≡ line_result (Calls.neighbour line e face) }
{
    e.neighbour(face).into()
}

#[unsafe(no_mangle)]
pub extern "C" fn gw_line_compare(e: Line, f: Line) -> CompareResult
    ensures { result ≡ compare_result (Calls.order line e f) }
{
    e.compare(f).into()
}

#[unsafe(no_mangle)]
pub extern "C" fn gw_line_family(xs: &[u32], levels: &[u8]) -> NumberResult
    ensures { result ≡ truth_result (family (columns xs.now levels.now)) }
{
    Lines { xs, levels }.family().into()
}
