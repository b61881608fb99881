// The calls on prisms.
ghost use Rattle.std.specs.Prelude.{◌≡◌};
ghost use Rattle.tree.specs.Calls;
ghost use Rattle.prism.specs.Elements.{prism};
ghost use Rattle.prism.specs.Columns.{columns, family};
ghost use Rattle.results.specs.Results.{prism_result, number_result, truth_result, compare_result};

use prism::{Prism, Prisms};
use results::{CompareResult, NumberResult, PrismResult};
use tree::columns::Columns;
use tree::element::Element;

#[unsafe(no_mangle)]
pub extern "C" fn gw_prism_at(level: u8, position: u64) -> PrismResult
    ensures { result ≡ prism_result (Calls.at prism level position) }
{
    Prism::at(level, position).into()
}

#[unsafe(no_mangle)]
pub extern "C" fn gw_prism_position(e: Prism) -> NumberResult
    ensures { result ≡ number_result (Calls.position prism e) }
{
    e.position().into()
}

#[unsafe(no_mangle)]
pub extern "C" fn gw_prism_parent(e: Prism) -> PrismResult
    ensures { result ≡ prism_result (Calls.parent prism e) }
{
    e.parent().into()
}

#[unsafe(no_mangle)]
pub extern "C" fn gw_prism_child(e: Prism, number: u8) -> PrismResult
    ensures { result ≡ prism_result (Calls.child prism e number) }
{
    e.child(number).into()
}

#[unsafe(no_mangle)]
pub extern "C" fn gw_prism_successor(e: Prism) -> PrismResult
    ensures { result ≡ prism_result (Calls.successor prism e) }
{
    e.successor().into()
}

#[unsafe(no_mangle)]
pub extern "C" fn gw_prism_first_descendant(e: Prism, level: u8) -> PrismResult
    ensures { result ≡ prism_result (Calls.first prism e level) }
{
    e.first_descendant(level).into()
}

#[unsafe(no_mangle)]
pub extern "C" fn gw_prism_last_descendant(e: Prism, level: u8) -> PrismResult
    ensures { result ≡ prism_result (Calls.last prism e level) }
{
    e.last_descendant(level).into()
}

#[unsafe(no_mangle)]
pub extern "C" fn gw_prism_neighbour(e: Prism, face: u8) -> PrismResult
    ensures { result ≡ prism_result (Calls.neighbour prism e face) }
{
    e.neighbour(face).into()
}

#[unsafe(no_mangle)]
pub extern "C" fn gw_prism_compare(e: Prism, f: Prism) -> CompareResult
    ensures { result ≡ compare_result (Calls.order prism e f) }
{
    e.compare(f).into()
}

#[unsafe(no_mangle)]
pub extern "C" fn gw_prism_family(
    xs: &[u32],
    ys: &[u32],
    zs: &[u32],
    levels: &[u8],
    kinds: &[u8],
) -> NumberResult
    ensures { result ≡ truth_result (family (columns xs.now ys.now zs.now levels.now kinds.now)) }
{
    Prisms {
        xs,
        ys,
        zs,
        levels,
        kinds,
    }
    .family()
    .into()
}
