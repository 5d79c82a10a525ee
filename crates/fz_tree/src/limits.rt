//! How large a text and its parts may be.

ghost use Rattle.std.specs.Prelude.{◌≡◌};

/// The most bytes of a text, elements of one list in brackets or braces and levels of annotations
/// in one another, and the greatest length of an array. There are two such values: what no call is
/// given limits for is read under `STANDARD`.
#[derive(Clone, Copy)]
pub struct Limits {
    bytes: usize,
    elements: usize,
    size: usize,
    depth: usize,
}

impl Limits {
    /// Texts of 16,777,216 bytes, lists and arrays of 1,048,576 elements.
    pub const STANDARD: Limits = Limits {
        bytes: 16_777_216,
        elements: 1_048_576,
        size: 1_048_576,
        depth: 32,
    };

    /// Texts of 1,073,741,824 bytes, lists and arrays of 134,217,728 elements.
    pub const LARGE: Limits = Limits {
        bytes: 1_073_741_824,
        elements: 134_217_728,
        size: 134_217_728,
        depth: 32,
    };

    /// The most bytes of a text.
    #[inline(always)]
    pub fn bytes(&self) -> usize
        ensures { result ≡ self.now.bytes }
    {
        self.bytes
    }

    /// The most elements of a list in brackets or braces.
    #[inline(always)]
    pub fn elements(&self) -> usize
        ensures { result ≡ self.now.elements }
    {
        self.elements
    }

    /// The greatest length of an array.
    #[inline(always)]
    pub fn size(&self) -> usize
        ensures { result ≡ self.now.size }
    {
        self.size
    }

    /// The most levels of annotations in one another.
    #[inline(always)]
    pub fn depth(&self) -> usize
        ensures { result ≡ self.now.depth }
    {
        self.depth
    }
}
