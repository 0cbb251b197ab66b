//! The calls of a source or sink in memory that are chosen to fail.

ghost use Rattle.std.specs.Prelude.{◌≡◌};
ghost use Rattle.gc_io.specs.Faults.{is_listed};

/// Whether the call of this number is listed among those that are to fail.
pub(crate) fn lists(numbers: &[u32], call: u64) -> bool
    ensures { result ≡ is_listed call numbers.now }
{
    numbers.iter().any(|listed| u64::from(*listed) == call)
}
