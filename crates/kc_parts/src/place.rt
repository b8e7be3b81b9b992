//! The place of a number.
ghost use Rattle.std.specs.Prelude.{◌≡◌};
ghost use Rattle.kc_parts.specs.Parts.{IsRising, place_of};

/// The place of a number in an ascending list, or the list's length if the number is not in it. If all numbers have
/// places, it is found at once.
pub(crate) fn place_of(numbers: &[u32], number: u32) -> usize
    requires { IsRising numbers.now }
    ensures { result ≡ place_of numbers.now number }
{
    let at = number as usize;
    if at < numbers.len() && numbers[at] == number {
        return at;
    }
    match numbers.binary_search(&number) {
        Ok(at) => at,
        Err(_) => numbers.len(),
    }
}
