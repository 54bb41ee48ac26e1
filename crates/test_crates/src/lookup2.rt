//! Hash values that were published, and those that another program computed.
use crate::equal::expect_equal_at;
use cm_lookup2::words;
use cm_route::{ROUTE_SEED, Route};
use std::test::Fail;

const TEXT: &[u8] = b"abcdefghijklmnopqrstuvwxyz";

/// The hash values of the first 2, 3, .. and 24 letters of the text under the seed 7, by another program: a tail of each length,
/// without a block and after one.
const PREFIXES: [[u32; 3]; 23] = [
    [0x829a_81d6, 0x90c0_1304, 0xdf8c_c24b],
    [0x0acd_393f, 0x3812_52ab, 0x2f61_dcab],
    [0x43c0_40e0, 0xdbe9_9acb, 0x89ec_511f],
    [0x48da_e3c4, 0xa2f9_99be, 0x4814_c079],
    [0x4fa1_905c, 0xeabb_086e, 0xa14a_ab39],
    [0xafdc_d623, 0xa637_ee12, 0x6f88_8a46],
    [0xc2b5_2aba, 0x6fc4_1b9a, 0x9cc5_5956],
    [0xf039_432f, 0xf023_d610, 0xa852_79e2],
    [0x8b39_7ae4, 0x849b_1763, 0x338b_137c],
    [0x3690_60e6, 0x4c43_d759, 0x24b0_0f7c],
    [0xe5da_ed70, 0x77a0_bc93, 0xc187_ab7b],
    [0xec45_9cc5, 0xaca6_db95, 0xb3b4_54fc],
    [0xe5a0_a44f, 0x35b1_2376, 0x333b_a016],
    [0x925c_2f25, 0x0189_0a27, 0xb075_596a],
    [0x39d9_4f8b, 0xaad1_1374, 0x7f2f_c567],
    [0x35f5_b28a, 0x7d61_9de7, 0xc1ba_54a0],
    [0x3196_ac12, 0x8af0_9782, 0xa790_96c3],
    [0xb456_9c33, 0x319c_6593, 0xb933_2b67],
    [0x47cc_de71, 0xd102_f17b, 0x3a5f_cc07],
    [0x482d_2711, 0x29e0_9cba, 0x7f33_72cd],
    [0xb650_ad2f, 0xb472_85ae, 0xee5f_0144],
    [0x0a40_4950, 0x5955_d850, 0xbfe3_a7e9],
    [0xbff2_3fb8, 0xcbac_584e, 0xf85b_7c93],
];

/// Keys, seeds and published hash values.
const ROWS: [(&[u8], u32, [u32; 3]); 6] = [
    (b"", 0, [0x9b2e_c03d, 0xdb2b_69ae, 0xbd49_d10d]),
    (b"a", 0, [0x9454_baa3, 0xb711_c708, 0x29ee_c818]),
    (b"b", 0, [0x985a_ccb1, 0x8a9b_d6c6, 0x54ac_a597]),
    (b"a", 1, [0x8338_ae66, 0xdb7e_1739, 0x75f1_faad]),
    (b"b", 1, [0x9456_939b, 0xbfb7_060f, 0x2148_e957]),
    (
        b"key-0000000000",
        1,
        [0x2ece_ba23, 0x9595_38f7, 0x9187_254a],
    ),
];

#[test]
fn hash_values(rt: HostRuntime) -> Result<(), Fail> {
    for (key, seed, expected) in &ROWS {
        expect_equal_at(&rt, &(*key, *seed), &words(*key, *seed), expected);
    }
    for n in 2..25usize {
        expect_equal_at(&rt, &n, &words(&TEXT[..n], 7), &PREFIXES[n - 2]);
    }
    Ok(())
}

/// Keys, numbers of shards, and the shard of each key under the seed of split files, by another program.
const SHARDS: [(&[u8], u32, u32); 6] = [
    (b"", 4_096, 1_001),
    (b"a", 4_096, 969),
    (b"b", 1, 0),
    (b"\n", 4_096, 3_168),
    (b"key-0000000000", 7, 5),
    (TEXT, 7, 4),
];

#[test]
fn shards(rt: HostRuntime) -> Result<(), Fail> {
    for (key, shards, expected) in &SHARDS {
        let shard = Route::new(ROUTE_SEED, *shards).shard(*key);
        expect_equal_at(&rt, &(*key, *shards), &shard, expected);
    }
    Ok(())
}
