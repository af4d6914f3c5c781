// The start of a slice.
ghost use Rattle.std.specs.Prelude.{◌≡◌, take};

// The first of the elements, as many as there are to be.
pub fn first<T>(elements: &[T], count: usize) -> &[T]
    ensures { result.now ≡ take count elements.now }
{
    elements.get(..count).unwrap_or(elements)
}
