//! A number is added to each number of a range, one by one.

ghost use Rattle.std.specs.Prelude.{◌≤◌, length};
ghost use Rattle.range_table.specs.Moving.{IsMoved};

/// Adds a number to each of those from one index up to another.
pub(crate) fn add_each(numbers: &mut [u64], from: usize, to: usize, more: u64)
    requires order { from ≤ to }
    requires within { to ≤ length numbers.old }
    ensures { IsMoved from to more numbers.old numbers.new }
{
    for index in from..to {
        numbers[index] = numbers[index].wrapping_add(more);
    }
}
