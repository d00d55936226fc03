// Numbers in the first places of an array.
ghost use Rattle.std.specs.Prelude.{◌≤◌};

/// Numbers in the first places of an array. It can be copied, as the library's `ArrayVec` cannot, so a type that keeps numbers in
/// it can be `Copy`.
#[derive(Clone, Copy)]
pub struct Row<const N: usize> {
    /// The numbers, in the first places.
    pub row: [u32; N],
    /// How many numbers there are.
    pub places: usize,
    // There are no more numbers than the array has places.
    ghost within: { places ≤ N },
}

impl<const N: usize> Row<N> {
    ghost use Rattle.std.specs.Prelude.{◌≡◌};
    ghost use Rattle.text.specs.Rows.{numbers};

    /// The numbers.
    pub fn numbers(&self) -> &[u32]
        ensures { result.now ≡ numbers self.now }
    {
        &self.row[..self.places]
    }
}
