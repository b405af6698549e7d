//! How large the values of a row are.

ghost use Rattle.std.specs.Prelude.{◌≡◌};
ghost use Rattle.row_core.specs.Conforms.{is_within};

/// The most bytes of a text, and of a value of bytes: 1 MiB.
pub const MAX_BYTES: usize = 1_048_576;

/// Whether a whole number is one from -limit to limit - 1.
pub(crate) fn is_within(limit: u64, whole: i128) -> bool
    ensures { result ≡ is_within limit whole }
{
    let limit = i128::from(limit);
    -limit <= whole && whole < limit
}
