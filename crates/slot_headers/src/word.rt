//! Pointer words: an address in the low 40 bits, and a version in the high 24.

ghost use Rattle.std.specs.Prelude.{◌≡◌, ◌<◌, ◌^◌};
ghost use Rattle.slot_headers.specs.Words.{WordsLaw, address_bound, address_of, pack, version_bound, version_of};

/// The bits of an address.
const ADDRESS_BITS: u32 = 40;

/// A pointer word packed in 64 bits, and its parts. The null word is 0, whose version is 0.
pub struct PtrWord {}

impl PtrWord {
    /// The word of an address and a version.
    pub fn pack(addr: u64, version: u32) -> u64
        requires address { addr < address_bound }
        requires version { version < version_bound }
        ensures { result ≡ pack addr version }
    {
        (u64::from(version) << ADDRESS_BITS) + addr
    }

    /// The address and the version of a word.
    #[tactic(auto, unfolding(crate::specs::Words::address_of, crate::specs::Words::version_of))]
    pub fn parts(word: u64) -> (u64, u32)
        ensures address { result.0 ≡ address_of word }
        ensures version { result.1 ≡ version_of word }
    {
        (word % (1 << ADDRESS_BITS), (word >> ADDRESS_BITS) as u32)
    }
}

/// A packed word has the parts that were packed, and a word is packed of its parts.
pub fn law_words()
    ensures { WordsLaw }
{}
