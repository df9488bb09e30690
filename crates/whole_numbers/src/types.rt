//! The types of whole numbers, their promotion and the common type of two.

ghost use Rattle.std.specs.Prelude.{◌≡◌, ◌+◌, ◌^◌};
ghost use Rattle.whole_numbers.specs.Types as spec;

/// How many bytes a number of a type has.
#[derive(Clone, Copy, Debug, PartialEq, Eq)]
pub enum Width {
    One,
    Two,
    Four,
    Eight,
}

/// A type of whole numbers (C11 6.2.5): a character, a short, an int or a long by its width.
#[derive(Clone, Copy, Debug, PartialEq, Eq)]
pub struct WholeType {
    pub width: Width,
    pub signed: bool,
}

impl Width {
    /// How many bits a number of this width has.
    pub fn bits(self) -> u32
        ensures { result ≡ spec.width_bits self }
    {
        match self {
            Width::One => 8,
            Width::Two => 16,
            Width::Four => 32,
            Width::Eight => 64,
        }
    }

    /// The bits of this width, all set.
    pub(crate) fn mask(self) -> u64
        ensures { result + 1 ≡ 2 ^ spec.width_bits self }
    {
        match self {
            Width::One => 0xff,
            Width::Two => 0xffff,
            Width::Four => 0xffff_ffff,
            Width::Eight => u64::MAX,
        }
    }
}

impl WholeType {
    /// `char`, which is signed here.
    pub const CHAR: WholeType = WholeType {
        width: Width::One,
        signed: true,
    };

    pub const UNSIGNED_CHAR: WholeType = WholeType {
        width: Width::One,
        signed: false,
    };

    pub const SHORT: WholeType = WholeType {
        width: Width::Two,
        signed: true,
    };

    pub const UNSIGNED_SHORT: WholeType = WholeType {
        width: Width::Two,
        signed: false,
    };

    pub const INT: WholeType = WholeType {
        width: Width::Four,
        signed: true,
    };

    pub const UNSIGNED_INT: WholeType = WholeType {
        width: Width::Four,
        signed: false,
    };

    /// `long`, and `long long` too.
    pub const LONG: WholeType = WholeType {
        width: Width::Eight,
        signed: true,
    };

    pub const UNSIGNED_LONG: WholeType = WholeType {
        width: Width::Eight,
        signed: false,
    };

    /// The type after the integer promotions (C11 6.3.1.1p2).
    pub fn promoted(self) -> WholeType
        ensures { result ≡ spec.promoted self }
    {
        match self.width {
            Width::One | Width::Two => WholeType::INT,
            Width::Four | Width::Eight => self,
        }
    }
}

/// The type in which an operator works on operands of two types (the usual arithmetic conversions, C11 6.3.1.8).
#[tactic(auto, unfolding(crate::specs::Types::common))]
pub fn common(left: WholeType, right: WholeType) -> WholeType
    ensures { result ≡ spec.common left right }
{
    let left = left.promoted();
    let right = right.promoted();
    if left.width == right.width {
        WholeType {
            width: left.width,
            signed: left.signed && right.signed,
        }
    } else if left.width == Width::Eight {
        left
    } else {
        right
    }
}
