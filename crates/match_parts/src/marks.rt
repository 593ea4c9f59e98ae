//! Marks of numbers, by which a map is tested for being one to one.

ghost use Rattle.std.specs.Prelude.{◌≡◌, length, Decides};
ghost use Rattle.match_laws.specs.Circuits.{IsOneToOne};
ghost use Rattle.match_parts.specs.Marks.{AreMarked, AreUnset};

/// Whether the numbers are a one-to-one map onto the numbers below the number of marks. What the
/// marks hold is lost. Takes no memory, and time in proportion to both lengths.
pub fn is_one_to_one(numbers: &[u32], marks: &mut [bool]) -> bool
    ensures { Decides result (IsOneToOne numbers.now (length numbers.now) (length marks.old)) }
{
    clear(marks);
    for i in 0..numbers.len() {
        let place = numbers[i] as usize;
        if place >= marks.len() {
            return false;
        }
        if marks[place] {
            return false;
        }
        marks[place] = true;
    }
    numbers.len() == marks.len()
}

/// Sets the marks of the listed numbers, and no others. Numbers that have no mark are passed over.
/// Takes no memory, and time in proportion to both lengths.
pub fn mark(numbers: &[u32], marks: &mut [bool])
    ensures { AreMarked numbers.now marks.new }
{
    clear(marks);
    for i in 0..numbers.len() {
        let place = numbers[i] as usize;
        if place < marks.len() {
            marks[place] = true;
        }
    }
}

fn clear(marks: &mut [bool])
    ensures { AreUnset (length marks.old) marks.new }
{
    for mark in marks.iter_mut() {
        *mark = false;
    }
}

#[cfg(test)]
mod tests {
    use super::*;

    #[test]
    fn maps(rt: HostRuntime) {
        let mut marks = [true, false, true];
        assert_eq!(rt; is_one_to_one(&[2, 0, 1], &mut marks), true);
        assert_eq!(rt; is_one_to_one(&[2, 0, 2], &mut marks), false);
        assert_eq!(rt; is_one_to_one(&[2, 0], &mut marks), false);
        assert_eq!(rt; is_one_to_one(&[2, 0, 3], &mut marks), false);
    }
}
