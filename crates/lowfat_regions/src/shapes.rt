//! The table of the regions.

ghost use Rattle.std.specs.Prelude.{◌≡◌};
ghost use Rattle.lowfat_regions.specs.Regions.{IsRegion};
ghost use Rattle.lowfat_regions.specs.Shapes as spec;

use crate::regions::REGIONS;

/// What the arithmetic of a region is made of: the bytes of a slot, how many slots there are, where the first of them
/// begins, and 2^40 by the bytes of a slot, rounded up.
#[derive(Clone, Copy, Debug)]
pub(crate) struct Shape {
    pub(crate) size: u64,
    pub(crate) slots: u32,
    pub(crate) first: u64,
    pub(crate) reciprocal: u64,
}

macro_rules! shape {
    ($region:expr, $size:expr, $slots:expr) => {
        Shape {
            size: $size,
            slots: $slots,
            first: (($region << 32) + ($size - 1)) / $size * $size,
            reciprocal: ((1 << 40) + ($size - 1)) / $size,
        }
    };
}

/// The shapes of the regions from 1 on.
const SHAPES: [Shape; REGIONS as usize] = [
    shape!(1, 32, 65536),
    shape!(2, 48, 65536),
    shape!(3, 64, 65536),
    shape!(4, 80, 65536),
    shape!(5, 96, 65536),
    shape!(6, 112, 65536),
    shape!(7, 128, 65536),
    shape!(8, 160, 65536),
    shape!(9, 192, 65536),
    shape!(10, 224, 65536),
    shape!(11, 256, 65536),
    shape!(12, 320, 52428),
    shape!(13, 384, 43690),
    shape!(14, 448, 37449),
    shape!(15, 512, 32768),
    shape!(16, 640, 26214),
    shape!(17, 768, 21845),
    shape!(18, 1024, 16384),
    shape!(19, 1536, 10922),
    shape!(20, 2048, 8192),
    shape!(21, 4096, 4096),
    shape!(22, 8192, 2048),
    shape!(23, 16384, 1024),
    shape!(24, 65536, 256),
    shape!(25, 131_072, 128),
    shape!(26, 262_144, 64),
    shape!(27, 1_048_576, 16),
];

/// The shape of a region.
pub(crate) fn shape_of(region: u32) -> Shape
    requires { IsRegion region }
    ensures { result ≡ spec.shape_of region }
{
    SHAPES[region as usize - 1]
}
