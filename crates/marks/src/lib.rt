// The marks of a list, one a leaf: 0 keep, 1 refine, 2 merge. A mark is a `u8`, since C hands in any number; 3 and more are refused. The highest
// level is an ordinary number, as in the laws. The searches are as `first_zero` of `shares`.
#![tactic(auto)]

ghost use Rattle.std.specs.Prelude.{◌≡◌, ◌&&◌, true, leb, eqb, length};
ghost use Rattle.paper.specs.Outcome.{checks};
ghost use Rattle.paper.specs.Refusals.{outcome_of};
ghost use Rattle.marks.specs.Marks.{mark_fault, depth_fault, numbers, check_marks};
ghost use Rattle.marks.specs.Inner.{Faultless};

use paper::Refusal;

// Whether the marks fit their leaves. Refused: 11 where there are not as many as levels, 13 at any leaf, then 7.
pub fn check(highest: u8, levels: &[u8], marks: &[u8]) -> Result<(), Refusal>
    ensures { outcome_of result ≡ check_marks highest levels.now marks.now }
{
    if levels.len() != marks.len() {
        return Err(Refusal::UnfitColumns(0));
    }
    if all_sound(highest, levels, marks) {
        return Ok(());
    }
    none_above_two(marks)?;
    none_too_deep(highest, levels, marks)
}

// Whether no mark has a fault: all of them without a way out in between, so that the machine takes many at a time. A level by its index:
// of a `zip` the invariant would speak of what two iterators have left, and here it speaks of one number.
fn all_sound(highest: u8, levels: &[u8], marks: &[u8]) -> bool
    requires { length levels.now ≡ length marks.now }
    ensures { result ≡ true → Faultless highest levels.now marks.now (length marks.now) }
{
    let mut sound = true;
    for (i, mark) in marks.iter().enumerate() {
        sound = sound & (*mark <= 2) & !refines_deep(highest, levels[i], *mark);
    }
    sound
}

// The first mark above 2, refused.
fn none_above_two(marks: &[u8]) -> Result<(), Refusal>
    ensures { outcome_of result ≡ checks (mark_fault marks.now) (numbers (length marks.now)) }
{
    for (i, mark) in marks.iter().enumerate() {
        if 2 < *mark {
            return Err(Refusal::NoMark(i as u64));
        }
    }
    Ok(())
}

// The first mark 1 on a leaf of the highest level, refused. A level by its index, as in `all_sound`.
fn none_too_deep(highest: u8, levels: &[u8], marks: &[u8]) -> Result<(), Refusal>
    requires { length levels.now ≡ length marks.now }
    ensures { outcome_of result ≡ checks (depth_fault highest levels.now marks.now) (numbers (length marks.now)) }
{
    for (i, mark) in marks.iter().enumerate() {
        if refines_deep(highest, levels[i], *mark) {
            return Err(Refusal::TooSmall(i as u64));
        }
    }
    Ok(())
}

// Whether a mark refines a leaf of the highest level.
fn refines_deep(highest: u8, level: u8, mark: u8) -> bool
    ensures { result ≡ (eqb mark 1 && leb highest level) }
{
    mark == 1 && highest <= level
}
