//! Headers and words, with their bytes written out.

use crate::{Header, PtrWord, Value};
use std::test::Fail;

/// Headers and their bytes: an object of 24 bytes, the same when fixed, and the greatest numbers.
static HEADERS: [(Header, [u8; 16]); 3] = [
    (
        Header {
            kind: 8,
            version: 1,
            fixed: false,
            size: 24,
        },
        [8, 0, 0, 0, 1, 0, 0, 0, 24, 0, 0, 0, 0, 0, 0, 0],
    ),
    (
        Header {
            kind: 0,
            version: 0x01_0203,
            fixed: true,
            size: 0x0f_ffef,
        },
        [0, 0, 0, 0, 3, 2, 1, 0x80, 0xef, 0xff, 0x0f, 0, 0, 0, 0, 0],
    ),
    (
        Header {
            kind: u32::MAX,
            version: (1 << 31) - 1,
            fixed: false,
            size: u64::MAX,
        },
        [
            255, 255, 255, 255, 255, 255, 255, 0x7f, 255, 255, 255, 255, 255, 255, 255, 255,
        ],
    ),
];

/// Addresses and versions with their words: the first object of region 2 as version 1, null, and the greatest word.
static WORDS: [(u64, u32, u64); 3] = [
    (1_108_101_562_400 - (1 << 40), 1, 1_108_101_562_400),
    (0, 0, 0),
    ((1 << 40) - 1, (1 << 24) - 1, u64::MAX),
];

/// Whether a header is written as these bytes, and read from them.
fn has_bytes(header: &Header, bytes: &[u8; 16]) -> bool {
    let mut written = [1; 16];
    if header.version >= 1 << 31 {
        return false;
    }
    header.put(&mut written);
    written == *bytes && Header::get(bytes) == *header
}

fn has_word(address: u64, version: u32, word: u64) -> bool {
    if address >= 1 << 40 || version >= 1 << 24 {
        return false;
    }
    PtrWord::pack(address, version) == word && PtrWord::parts(word) == (address, version)
}

#[test]
fn headers_have_their_bytes_and_words_their_parts(rt: HostRuntime) -> Result<(), Fail> {
    for (header, bytes) in &HEADERS {
        assert!(rt; has_bytes(header, bytes));
    }
    for (address, version, word) in &WORDS {
        assert!(rt; has_word(*address, *version, *word));
    }
    let null = Value {
        bits: 0,
        pointer: false,
    };
    assert_eq!(rt; null, null);
    Ok(())
}
