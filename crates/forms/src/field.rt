// One field of the order line.
ghost use Rattle.std.specs.Prelude.{◌≡◌};
ghost use Rattle.fields.specs.Inner.{numbered_of};
ghost use Rattle.forms.specs.Inner.{taken};

use fields::digits;
use fields::digits::Number;
use paper::Refusal;

// The number in the field that begins at `at`, and where it ends. Refused: 23 at the field where it is missing or no number.
pub(crate) fn take(input: &[u8], at: usize, field: u64) -> Result<Number, Refusal>
    ensures { numbered_of result ≡ taken input.now at field }
{
    digits::number_at(input, at).map_err(|_| Refusal::UnfitField(field))
}
