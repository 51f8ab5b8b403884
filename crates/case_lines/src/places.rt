//! Values that are put in place of others.
ghost use Rattle.std.specs.Prelude.{◌≡◌};

/// Puts a value where another one was, and lets that one go.
pub fn put<T: Drop>(place: &mut T, value: T)
    ensures { place.new ≡ value }
{
    *place = value;
}
