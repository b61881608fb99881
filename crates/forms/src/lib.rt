// The order line: its seven fields from left to right, each with its number and its range.
#![tactic(auto)]

ghost use Rattle.std.specs.Prelude.{◌≡◌};
ghost use Rattle.forms.specs.Forms.{form_of, read};

use fields::cut;
use paper::Refusal;

mod field;
mod range;

// The numbers of an order, as its first line prints them.
#[derive(Clone, Copy)]
pub struct Form {
    pub order: u64,
    pub site: u64,
    pub model: u64,
    pub roots: u64,
    pub level: u64,
    pub leaves: u32,
    pub shares: u16,
}

// What the input asks for. Refused: the first field with a fault; 23 at field 8 where anything but one last LF follows the seventh.
pub fn read(input: &[u8]) -> Result<Form, Refusal>
    ensures { form_of result ≡ read input.now }
{
    let order = field::take(input, 0, 1)?;
    let site = field::take(input, cut::after(input, order.end), 2)?;
    let model = field::take(input, cut::after(input, site.end), 3)?;
    let roots = field::take(input, cut::after(input, model.end), 4)?;
    range::check_count(roots.value, 4)?;
    let highest = field::take(input, cut::after(input, roots.end), 5)?;
    range::check_highest(highest.value, 5)?;
    let shares = field::take(input, cut::after(input, highest.end), 6)?;
    range::check_count(shares.value, 6)?;
    let level = field::take(input, cut::after(input, shares.end), 7)?;
    range::check_level(level.value, roots.value, highest.value, 7)?;
    if !cut::closing(input, level.end) {
        return Err(Refusal::UnfitField(8));
    }
    Ok(Form {
        order: order.value,
        site: site.value,
        model: model.value,
        roots: roots.value,
        level: level.value,
        leaves: (roots.value << (3 * level.value)) as u32,
        shares: shares.value as u16,
    })
}
