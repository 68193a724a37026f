// What reading and checking both ask of numbers in a row.
ghost use Rattle.std.specs.Prelude.{◌≡◌};
ghost use Rattle.pub_proof.specs.Order.{is_above};

// Whether the number is above the one before it.
pub(crate) fn is_above(before: Option<u32>, number: u32) -> bool
    ensures { result ≡ is_above before number }
{
    match before {
        None => true,
        Some(before) => before < number,
    }
}
