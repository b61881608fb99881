// The order program's call, and the converter's.
ghost use Rattle.interface.specs.Calls.{OrderResult, ConvertResult};

use results::NumberResult;

// What the order program prints on the input, at the front of the buffer. The value is how many bytes.
#[unsafe(no_mangle)]
pub extern "C" fn gw_order(input: &[u8], out: &mut [u8]) -> NumberResult
    ensures { OrderResult result input.now out.old out.new }
{
    orders::answer(input, out).into()
}

// What the converter prints on a stored line, at the front of the buffer. The value is how many bytes.
#[unsafe(no_mangle)]
pub extern "C" fn gw_convert(input: &[u8], out: &mut [u8]) -> NumberResult
    ensures { ConvertResult result input.now out.old out.new }
{
    converter::convert(input, out).into()
}
