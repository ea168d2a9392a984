ghost use Rattle.std.specs.Prelude.{◌≡◌, slice_index, slice_set};

// Sets a register or memory cell, 0 to 15; there are no others, and a write of one changes nothing.
pub(crate) fn put_number(numbers: &mut [u64; 16], place: u8, value: u64)
    ensures { numbers.new ≡ slice_set numbers.old place value }
{
    if place < 16 {
        numbers[place as usize] = value;
    }
}

// The number in a register or memory cell; 0 if there is none.
pub(crate) fn number_in(numbers: &[u64; 16], place: u8) -> u64
    ensures { result ≡ slice_index numbers.now place }
{
    numbers.get(place as usize).copied().unwrap_or(0)
}
