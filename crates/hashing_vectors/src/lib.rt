// The hashes of `hashing` on vectors: texts and words whose hashes are known from elsewhere.
#![tactic(auto)]

#[cfg(test)]
mod tests {
    use hashing::flat::Flat;
    use hashing::fnv::{Fnv1a, fnv1a_bytes};
    use hashing::{WordHash, Words};

    // Rows of the test suite that the authors of FNV publish, as known here, but for the last two. All hashes were
    // recomputed by a second implementation.
    const TEXTS: [(&[u8], u64); 19] = [
        (b"", 0xcbf2_9ce4_8422_2325),
        (b"a", 0xaf63_dc4c_8601_ec8c),
        (b"b", 0xaf63_df4c_8601_f1a5),
        (b"c", 0xaf63_de4c_8601_eff2),
        (b"d", 0xaf63_d94c_8601_e773),
        (b"e", 0xaf63_d84c_8601_e5c0),
        (b"f", 0xaf63_db4c_8601_ead9),
        (b"fo", 0x0898_5907_b541_d342),
        (b"foo", 0xdcb2_7518_fed9_d577),
        (b"foob", 0xdd12_0e79_0c25_12af),
        (b"fooba", 0xcac1_65af_a2fe_f40a),
        (b"foobar", 0x8594_4171_f739_67e8),
        (b"\0", 0xaf63_bd4c_8601_b7df),
        (b"a\0", 0x089b_e207_b544_f1e4),
        (b"foobar\0", 0x3453_1ca7_168b_8f38),
        (b"chongo", 0xe150_688c_8217_b8fd),
        (b"chongo was here!\n", 0x4681_0940_eff5_f915),
        (b"hello", 0xa430_d846_80aa_bd0b),
        (
            b"http://www.isthe.com/chongo/tech/comp/fnv/index.html#FNV-param",
            0x2cc5_5a9d_7ea0_3e88,
        ),
    ];

    #[test]
    fn texts_hash_as_published(rt: HostRuntime) {
        for (text, hash) in TEXTS {
            assert_eq!(rt; fnv1a_bytes(text), hash);
        }
    }

    // From a second implementation, over the eight bytes of each word, the highest first.
    const WORDS: [(Words, u64); 4] = [
        (Words::One(0), 0xa8c7_f832_281a_39c5),
        (Words::One(0x0123_4567_89ab_cdef), 0x9ed0_0e1a_f2c1_3f65),
        (Words::Two(1, 2), 0xf4b5_c85b_cc64_6aec),
        (Words::Three(u64::MAX, 0, 1), 0xe26a_2969_2e4c_4dca),
    ];

    #[test]
    fn words_hash_by_their_bytes(rt: HostRuntime) {
        for (words, hash) in WORDS {
            assert_eq!(rt; Fnv1a.hash(&words), hash);
            assert_eq!(rt; Flat.hash(&words), 0);
        }
    }
}
