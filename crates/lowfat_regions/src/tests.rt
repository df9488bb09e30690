//! Sizes, addresses and slots, with values worked out by hand.

use crate::{
    REGIONS, class_of, object_address, region_of, size_of_region, slot_address, slot_base,
    slot_number, slots_of,
};
use std::test::Fail;

/// Sizes with their regions: the least and the greatest object of each region, and past the last.
static CLASSES: [(u64, Option<u32>); 56] = [
    (0, Some(1)),
    (15, Some(1)),
    (16, Some(2)),
    (31, Some(2)),
    (32, Some(3)),
    (47, Some(3)),
    (48, Some(4)),
    (63, Some(4)),
    (64, Some(5)),
    (79, Some(5)),
    (80, Some(6)),
    (95, Some(6)),
    (96, Some(7)),
    (111, Some(7)),
    (112, Some(8)),
    (143, Some(8)),
    (144, Some(9)),
    (175, Some(9)),
    (176, Some(10)),
    (207, Some(10)),
    (208, Some(11)),
    (239, Some(11)),
    (240, Some(12)),
    (303, Some(12)),
    (304, Some(13)),
    (367, Some(13)),
    (368, Some(14)),
    (431, Some(14)),
    (432, Some(15)),
    (495, Some(15)),
    (496, Some(16)),
    (623, Some(16)),
    (624, Some(17)),
    (751, Some(17)),
    (752, Some(18)),
    (1007, Some(18)),
    (1008, Some(19)),
    (1519, Some(19)),
    (1520, Some(20)),
    (2031, Some(20)),
    (2032, Some(21)),
    (4079, Some(21)),
    (4080, Some(22)),
    (8175, Some(22)),
    (8176, Some(23)),
    (16_367, Some(23)),
    (16_368, Some(24)),
    (65_519, Some(24)),
    (65_520, Some(25)),
    (131_055, Some(25)),
    (131_056, Some(26)),
    (262_127, Some(26)),
    (262_128, Some(27)),
    (1_048_559, Some(27)),
    (1_048_560, None),
    (u64::MAX, None),
];

/// Regions with the bytes of a slot, how many slots there are, and where the first and the last begin.
static SHAPES: [(u32, u64, u32, u64, u64); 27] = [
    (1, 32, 65_536, 0x1_0000_0000, 0x1_001f_ffe0),
    (2, 48, 65_536, 0x2_0000_0010, 0x2_002f_ffe0),
    (3, 64, 65_536, 0x3_0000_0000, 0x3_003f_ffc0),
    (4, 80, 65_536, 0x4_0000_0010, 0x4_004f_ffc0),
    (5, 96, 65_536, 0x5_0000_0040, 0x5_005f_ffe0),
    (6, 112, 65_536, 0x6_0000_0020, 0x6_006f_ffb0),
    (7, 128, 65_536, 0x7_0000_0000, 0x7_007f_ff80),
    (8, 160, 65_536, 0x8_0000_0020, 0x8_009f_ff80),
    (9, 192, 65_536, 0x9_0000_0000, 0x9_00bf_ff40),
    (10, 224, 65_536, 0xa_0000_0080, 0xa_00df_ffa0),
    (11, 256, 65_536, 0xb_0000_0000, 0xb_00ff_ff00),
    (12, 320, 52_428, 0xc_0000_0080, 0xc_00ff_fe40),
    (13, 384, 43_690, 0xd_0000_0080, 0xd_00ff_fe00),
    (14, 448, 37_449, 0xe_0000_0000, 0xe_00ff_fe00),
    (15, 512, 32_768, 0xf_0000_0000, 0xf_00ff_fe00),
    (16, 640, 26_214, 0x10_0000_0180, 0x10_00ff_fe00),
    (17, 768, 21_845, 0x11_0000_0100, 0x11_00ff_fd00),
    (18, 1024, 16_384, 0x12_0000_0000, 0x12_00ff_fc00),
    (19, 1536, 10_922, 0x13_0000_0200, 0x13_00ff_f800),
    (20, 2048, 8192, 0x14_0000_0000, 0x14_00ff_f800),
    (21, 4096, 4096, 0x15_0000_0000, 0x15_00ff_f000),
    (22, 8192, 2048, 0x16_0000_0000, 0x16_00ff_e000),
    (23, 16_384, 1024, 0x17_0000_0000, 0x17_00ff_c000),
    (24, 65_536, 256, 0x18_0000_0000, 0x18_00ff_0000),
    (25, 131_072, 128, 0x19_0000_0000, 0x19_00fe_0000),
    (26, 262_144, 64, 0x1a_0000_0000, 0x1a_00fc_0000),
    (27, 1_048_576, 16, 0x1b_0000_0000, 0x1b_00f0_0000),
];

/// Addresses with their regions, slots and bases: below all regions, before the first slot, at the ends of slots, past
/// the last slot near and far, past all regions.
static ADDRESSES: [(u64, Option<u32>, Option<u32>, Option<u64>); 27] = [
    (0x0, None, None, None),
    (0xffff_ffff, None, None, None),
    (0x1_0000_0000, Some(1), Some(0), Some(0x1_0000_0000)),
    (0x1_0000_001f, Some(1), Some(0), Some(0x1_0000_0000)),
    (0x1_0000_0020, Some(1), Some(1), Some(0x1_0000_0020)),
    (0x1_001f_ffff, Some(1), Some(65535), Some(0x1_001f_ffe0)),
    (0x1_0020_0000, Some(1), None, Some(0x1_0020_0000)),
    (0x2_0000_000f, Some(2), None, Some(0x1_ffff_ffe0)),
    (0x2_0000_0010, Some(2), Some(0), Some(0x2_0000_0010)),
    (0x2_0000_015f, Some(2), Some(6), Some(0x2_0000_0130)),
    (0x2_0000_0160, Some(2), Some(7), Some(0x2_0000_0160)),
    (0x2_0030_000f, Some(2), Some(65535), Some(0x2_002f_ffe0)),
    (0x2_0030_0010, Some(2), None, Some(0x2_0030_0010)),
    (0xc_00ff_ff7f, Some(12), Some(52427), Some(0xc_00ff_fe40)),
    (0xc_00ff_ff80, Some(12), None, Some(0xc_00ff_ff80)),
    (0x13_00ff_fdff, Some(19), Some(10921), Some(0x13_00ff_f800)),
    (0x13_00ff_fe00, Some(19), None, Some(0x13_00ff_fe00)),
    (0x13_00ff_ffff, Some(19), None, Some(0x13_00ff_fe00)),
    (0x13_0200_01ff, Some(19), None, Some(0x13_0200_0000)),
    (0x13_0200_0200, Some(19), None, Some(0x13_0200_0000)),
    (0x13_ffff_ffff, Some(19), None, Some(0x13_ffff_fe00)),
    (0x1b_00ff_ffff, Some(27), Some(15), Some(0x1b_00f0_0000)),
    (0x1b_0100_0000, Some(27), None, Some(0x1b_0100_0000)),
    (0x1b_ffff_ffff, Some(27), None, Some(0x1b_fff0_0000)),
    (0x1c_0000_0000, None, None, None),
    (0xff_ffff_ffff, None, None, None),
    (u64::MAX, None, None, None),
];

/// Whether a region has these slots.
fn has_slots(shape: &(u32, u64, u32, u64, u64)) -> bool {
    let (region, size, slots, first, last) = *shape;
    if region < 1 || region > REGIONS {
        return false;
    }
    let count = slots_of(region);
    if count < 1 {
        return false;
    }
    size_of_region(region) == size
        && count == slots
        && slot_address(region, 0) == first
        && slot_address(region, count - 1) == last
}

/// The base of an address that is in a region.
fn base_of(address: u64) -> Option<u64> {
    region_of(address)?;
    Some(slot_base(address))
}

#[test]
fn sizes_and_addresses_have_their_regions_and_slots(rt: HostRuntime) -> Result<(), Fail> {
    for (size, region) in &CLASSES {
        assert_eq!(rt; class_of(*size), *region);
    }
    for shape in &SHAPES {
        assert!(rt; has_slots(shape));
    }
    for (address, region, slot, base) in &ADDRESSES {
        assert_eq!(rt; region_of(*address), *region);
        assert_eq!(rt; slot_number(*address), *slot);
        assert_eq!(rt; base_of(*address), *base);
    }
    Ok(())
}

/// The first byte of the first object of a region, and where the slot begins to which the object's end leads back.
fn first_byte_and_base(region: u32, size: u64) -> Option<(u64, u64)> {
    if region < 1 || region > REGIONS || size > 1 << 20 {
        return None;
    }
    if slots_of(region) < 1 {
        return None;
    }
    let first = object_address(region, 0);
    let end = first + size;
    region_of(end)?;
    Some((first, slot_base(end)))
}

/// An object of 24 bytes is in region 2. Its first byte is 16 bytes past the beginning of a slot, to which its end leads
/// back.
#[test]
fn the_end_of_an_object_leads_to_its_slot(rt: HostRuntime) -> Result<(), Fail> {
    assert_eq!(rt; class_of(24), Some(2));
    let first = 1_108_101_562_400 - (1 << 40);
    assert_eq!(rt; first_byte_and_base(2, 24), Some((first, first - 16)));
    Ok(())
}
