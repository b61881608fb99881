// The calls on lines.
ghost use Rattle.std.specs.Prelude.{◌≡◌};
ghost use Rattle.tree.specs.Calls;
ghost use Rattle.line.specs.Elements.{line};
ghost use Rattle.line.specs.Columns.{columns, family};
ghost use Rattle.results.specs.Results.{line_result, number_result, truth_result, compare_result};

use line::Line;
use results::{CompareResult, LineResult, NumberResult};

#[unsafe(no_mangle)]
pub extern "C" fn gw_line_at(level: u8, position: u64) -> LineResult
    ensures { result ≡ line_result (Calls.at line level position) }
{
    interface::line_calls::gw_line_at(level, position)
}

#[unsafe(no_mangle)]
pub extern "C" fn gw_line_position(e: Line) -> NumberResult
    ensures { result ≡ number_result (Calls.position line e) }
{
    interface::line_calls::gw_line_position(e)
}

#[unsafe(no_mangle)]
pub extern "C" fn gw_line_parent(e: Line) -> LineResult
    ensures { result ≡ line_result (Calls.parent line e) }
{
    interface::line_calls::gw_line_parent(e)
}

#[unsafe(no_mangle)]
pub extern "C" fn gw_line_child(e: Line, number: u8) -> LineResult
    ensures { result ≡ line_result (Calls.child line e number) }
{
    interface::line_calls::gw_line_child(e, number)
}

#[unsafe(no_mangle)]
pub extern "C" fn gw_line_successor(e: Line) -> LineResult
    ensures { result ≡ line_result (Calls.successor line e) }
{
    interface::line_calls::gw_line_successor(e)
}

#[unsafe(no_mangle)]
pub extern "C" fn gw_line_first_descendant(e: Line, level: u8) -> LineResult
    ensures { result ≡ line_result (Calls.first line e level) }
{
    interface::line_calls::gw_line_first_descendant(e, level)
}

#[unsafe(no_mangle)]
pub extern "C" fn gw_line_last_descendant(e: Line, level: u8) -> LineResult
    ensures { result ≡ line_result (Calls.last line e level) }
{
    interface::line_calls::gw_line_last_descendant(e, level)
}

#[unsafe(no_mangle)]
pub extern "C" fn gw_line_neighbour(e: Line, face: u8) -> LineResult
    ensures { result ≡ line_result (Calls.neighbour line e face) }
{
    interface::line_calls::gw_line_neighbour(e, face)
}

#[unsafe(no_mangle)]
pub extern "C" fn gw_line_compare(e: Line, f: Line) -> CompareResult
    ensures { result ≡ compare_result (Calls.order line e f) }
{
    interface::line_calls::gw_line_compare(e, f)
}

#[unsafe(no_mangle)]
pub extern "C" fn gw_line_family(xs: &[u32], levels: &[u8]) -> NumberResult
    ensures { result ≡ truth_result (family (columns xs.now levels.now)) }
{
    interface::line_calls::gw_line_family(xs, levels)
}
