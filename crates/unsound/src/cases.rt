// Directories that are sound, that break one rule of a sound level, or several. The comment of each case says what the check
// must tell and why: 00 where the level is sound, 05 with the rule that is broken, 02 with the bad block, or 18
// where the workspace is too small.
use crate::patches::*;
use crate::volumes::Volume;
use crate::volumes::Volume::*;

// A volume, the number of blocks of its image, and those of them that are bad. It and a case are rows of tables: names of fields
// would make each four lines longer.
#[derive(Clone, Copy)]
pub struct Disk(pub Volume, pub usize, pub &'static [u32]);

// A label, the disk, and the words that are changed in its directory.
#[derive(Clone, Copy)]
pub struct Case(pub &'static str, pub Disk, pub &'static [Patch]);

// The disk of most cases.
const USUAL: Disk = Disk(System(0), 100, &[]);

// Sound volumes.
pub fn sound() -> &'static [Case] {
    const CASES: &[Case] = &[
        // 00: Segments 1, 3, 2 hold blocks 14 to 53, 54 to 73 and 74 to 99.
        Case("the volume", USUAL, &[]),
        // 00: 7 + 2 × 1 = 9 blocks; the empty is block 8.
        Case(
            "smallest volume",
            Disk(Blank, 9, &[]),
            &[
                Patch(1, TOTAL, 1),
                Patch(1, HIGHEST, 1),
                Patch(1, START, 8),
                Patch(1, FIRST, 512),
                Patch(1, FIRST + LENGTH, 1),
                Patch(1, SECOND, 2048),
            ],
        ),
        // 00: 7 + 2 × 31 = 69 blocks; the empty is block 68.
        Case(
            "31 segments on 69 blocks",
            Disk(Blank, 69, &[]),
            &[
                Patch(1, TOTAL, 31),
                Patch(1, HIGHEST, 1),
                Patch(1, START, 68),
                Patch(1, FIRST, 512),
                Patch(1, FIRST + LENGTH, 1),
                Patch(1, SECOND, 2048),
            ],
        ),
        // 00: 7 + 2 × 4 = 15 blocks; a file of 1 block, block 14, is all.
        Case(
            "4 segments on 15 blocks",
            Disk(System(0), 15, &[]),
            &[
                Patch(1, NEXT, 0),
                Patch(1, HIGHEST, 1),
                Patch(1, FIRST + LENGTH, 1),
                Patch(1, SECOND, 2048),
            ],
        ),
        // 00: The directory is blocks 6 to 13.
        Case(
            "bad blocks outside the directory",
            Disk(System(0), 100, &[0, 1, 5, 14, 54, 99]),
            &[],
        ),
        // 00: Segment 4 has no entries and begins where the volume ends.
        Case(
            "4 segments in use",
            USUAL,
            &[
                Patch(1, HIGHEST, 4),
                Patch(2, NEXT, 4),
                Patch(4, START, 100),
                Patch(4, FIRST, 2048),
            ],
        ),
        // 00: 54 + 5 + 1 + 40 = 100, and segment 3 does not count.
        Case(
            "2 segments in use",
            USUAL,
            &[
                Patch(1, HIGHEST, 2),
                Patch(1, NEXT, 2),
                Patch(2, START, 54),
                Patch(2, THIRD + LENGTH, 40),
            ],
        ),
        // 00: 14 + 26 + 4 + 56 = 100.
        Case(
            "1 segment in use",
            USUAL,
            &[
                Patch(1, HIGHEST, 1),
                Patch(1, NEXT, 0),
                Patch(1, THIRD + LENGTH, 56),
            ],
        ),
        // 00: 54 + 26 = 80 and 80 + 20 = 100.
        Case(
            "chain 1, 2, 3",
            USUAL,
            &[
                Patch(1, NEXT, 2),
                Patch(2, NEXT, 3),
                Patch(3, NEXT, 0),
                Patch(2, START, 54),
                Patch(3, START, 80),
            ],
        ),
    ];
    CASES
}

// Rule 1: a level has 9 blocks or more. It comes before any block is read.
pub fn sizes() -> &'static [Case] {
    const CASES: &[Case] = &[
        // 05 1: 0 is below 9.
        Case("0 blocks", Disk(System(0), 0, &[]), &[]),
        // 05 1: 1 is below 9.
        Case("1 blocks", Disk(System(0), 1, &[]), &[]),
        // 05 1: 2 is below 9.
        Case("2 blocks", Disk(System(0), 2, &[]), &[]),
        // 05 1: 3 is below 9.
        Case("3 blocks", Disk(System(0), 3, &[]), &[]),
        // 05 1: 4 is below 9.
        Case("4 blocks", Disk(System(0), 4, &[]), &[]),
        // 05 1: 5 is below 9.
        Case("5 blocks", Disk(System(0), 5, &[]), &[]),
        // 05 1: 6 is below 9.
        Case("6 blocks", Disk(System(0), 6, &[]), &[]),
        // 05 1: 7 is below 9.
        Case("7 blocks", Disk(System(0), 7, &[]), &[]),
        // 05 1: 8 is below 9.
        Case("8 blocks", Disk(System(0), 8, &[]), &[]),
        // 05 1: Rule 1 comes before block 6 is read.
        Case("7 blocks, 6 bad", Disk(System(0), 7, &[6]), &[]),
        // 05 1: Rule 1 comes before block 6 is read.
        Case("8 blocks, 6 and 7 bad", Disk(System(0), 8, &[6, 7]), &[]),
        // 05 1: Rule 1 comes before rule 2.
        Case(
            "8 blocks, 0 segments",
            Disk(System(0), 8, &[]),
            &[Patch(1, TOTAL, 0)],
        ),
    ];
    CASES
}

// Rule 2: the number of segments S is 1 to 31, and 7 + 2S is at most the number of blocks.
pub fn totals() -> &'static [Case] {
    const CASES: &[Case] = &[
        // 05 2: S is 0.
        Case("zeros, 9 blocks", Disk(Blank, 9, &[]), &[]),
        // 05 2: S is 0.
        Case("zeros, 100 blocks", Disk(Blank, 100, &[]), &[]),
        // 05 2: S is 0.
        Case("0 segments", USUAL, &[Patch(1, TOTAL, 0)]),
        // 05 2: S is above 31, though 71 blocks would do.
        Case("32 segments", USUAL, &[Patch(1, TOTAL, 32)]),
        // 05 2: S is above 31, though 99 blocks would do.
        Case("46 segments", USUAL, &[Patch(1, TOTAL, 46)]),
        // 05 2: S is a whole word, and not its low byte 4.
        Case("260 segments", USUAL, &[Patch(1, TOTAL, 260)]),
        // 05 2: S is above 31, whatever 2S is in 16 bits.
        Case("32,768 segments", USUAL, &[Patch(1, TOTAL, 32_768)]),
        // 05 2: S is above 31.
        Case("65,535 segments", USUAL, &[Patch(1, TOTAL, 65_535)]),
        // 05 2: 7 + 2 × 2 = 11.
        Case(
            "2 segments on 10 blocks",
            Disk(Blank, 10, &[]),
            &[
                Patch(1, TOTAL, 2),
                Patch(1, HIGHEST, 1),
                Patch(1, START, 10),
                Patch(1, FIRST, 2048),
            ],
        ),
        // 05 2: 7 + 2 × 4 = 15.
        Case(
            "4 segments on 14 blocks",
            Disk(System(0), 14, &[]),
            &[
                Patch(1, NEXT, 0),
                Patch(1, HIGHEST, 1),
                Patch(1, FIRST, 2048),
            ],
        ),
        // 05 2: 7 + 2 × 31 = 69.
        Case(
            "31 segments on 68 blocks",
            Disk(Blank, 68, &[]),
            &[
                Patch(1, TOTAL, 31),
                Patch(1, HIGHEST, 1),
                Patch(1, START, 68),
                Patch(1, FIRST, 2048),
            ],
        ),
    ];
    CASES
}

// Bad blocks of the directory: 6 and 7 are told before rule 2, the others before rule 3, the lowest of them.
pub fn bad_blocks() -> &'static [Case] {
    const CASES: &[Case] = &[
        // 02 6: Segment 1 is blocks 6 and 7.
        Case("6 bad", Disk(System(0), 100, &[6]), &[]),
        // 02 7: Segment 1 is blocks 6 and 7.
        Case("7 bad", Disk(System(0), 100, &[7]), &[]),
        // 02 6: The lowest is told, whatever the order of the list.
        Case("7 and 6 bad", Disk(System(0), 100, &[7, 6]), &[]),
        // 02 6: Before rule 2, which is broken too.
        Case("6 bad, zeros, 9 blocks", Disk(Blank, 9, &[6]), &[]),
        // 02 6: Before rule 2, which is broken too.
        Case(
            "6 bad, 0 segments",
            Disk(System(0), 100, &[6]),
            &[Patch(1, TOTAL, 0)],
        ),
        // 02 7: Before rule 2, which is broken too.
        Case(
            "7 bad, 32 segments",
            Disk(System(0), 100, &[7]),
            &[Patch(1, TOTAL, 32)],
        ),
        // 05 2: Rule 2 comes before block 8 is read.
        Case(
            "8 bad, 0 segments",
            Disk(System(0), 100, &[8]),
            &[Patch(1, TOTAL, 0)],
        ),
        // 05 2: Rule 2 comes before block 8 is read.
        Case(
            "8 bad, 65,535 segments",
            Disk(System(0), 100, &[8]),
            &[Patch(1, TOTAL, 65_535)],
        ),
        // 02 8: Segment 2 is blocks 8 and 9.
        Case("8 bad", Disk(System(0), 100, &[8]), &[]),
        // 02 13: Segment 4, which is not in use, is blocks 12 and 13: all blocks of the directory are read.
        Case("13 bad", Disk(System(0), 100, &[13]), &[]),
        // 02 9: The lowest is told, whatever the order of the list.
        Case("12 and 9 bad", Disk(System(0), 100, &[12, 9]), &[]),
        // 02 8: The lowest is told, though block 10 comes first along the chain.
        Case("10 and 8 bad", Disk(System(0), 100, &[10, 8]), &[]),
        // 02 7: The lowest is told.
        Case("13 and 7 bad", Disk(System(0), 100, &[13, 7]), &[]),
        // 02 8: Before rule 3, which is broken too.
        Case(
            "8 bad, highest 0",
            Disk(System(0), 100, &[8]),
            &[Patch(1, HIGHEST, 0)],
        ),
        // 02 13: Before rule 3.
        Case(
            "13 bad, rules 3 to 9 broken",
            Disk(System(0), 100, &[13]),
            &[
                Patch(1, HIGHEST, 5),
                Patch(1, NEXT, 1),
                Patch(1, EXTRA, 1),
                Patch(1, FIRST, 0),
                Patch(1, START, 0),
                Patch(1, FIRST + NAME, 64_000),
            ],
        ),
        // 02 67: The directory is blocks 6 to 67.
        Case(
            "67 bad, 31 segments",
            Disk(Blank, 69, &[67]),
            &[
                Patch(1, TOTAL, 31),
                Patch(1, HIGHEST, 1),
                Patch(1, START, 68),
                Patch(1, FIRST, 512),
                Patch(1, FIRST + LENGTH, 1),
                Patch(1, SECOND, 2048),
            ],
        ),
        // 00: The directory is blocks 6 to 67.
        Case(
            "68 bad, 31 segments",
            Disk(Blank, 69, &[68]),
            &[
                Patch(1, TOTAL, 31),
                Patch(1, HIGHEST, 1),
                Patch(1, START, 68),
                Patch(1, FIRST, 512),
                Patch(1, FIRST + LENGTH, 1),
                Patch(1, SECOND, 2048),
            ],
        ),
        // 00: The directory is blocks 6 to 11, and 12 + 28 = 40.
        Case(
            "12 bad, 3 segments",
            Disk(System(0), 100, &[12]),
            &[
                Patch(1, TOTAL, 3),
                Patch(1, START, 12),
                Patch(1, FIRST + LENGTH, 28),
            ],
        ),
    ];
    CASES
}

// Rule 3: the highest segment in use H is 1 to S. Only segment 1 tells S and H.
pub fn highest_in_use() -> &'static [Case] {
    const CASES: &[Case] = &[
        // 05 3: H is 0.
        Case("highest 0", USUAL, &[Patch(1, HIGHEST, 0)]),
        // 05 3: H is above S.
        Case("highest 5 of 4", USUAL, &[Patch(1, HIGHEST, 5)]),
        // 05 3: H is a whole word, and not its low byte 3.
        Case("highest 259 of 4", USUAL, &[Patch(1, HIGHEST, 259)]),
        // 05 3: H is above S.
        Case("highest 65,535 of 4", USUAL, &[Patch(1, HIGHEST, 65_535)]),
        // 05 4: H is S, so rule 3 holds; the chain 1, 3, 2 ends before it meets segment 4.
        Case(
            "highest 31 of 31",
            USUAL,
            &[Patch(1, TOTAL, 31), Patch(1, HIGHEST, 31)],
        ),
        // 00: Those words count in segment 1 only.
        Case(
            "totals and highest of later segments",
            USUAL,
            &[
                Patch(3, TOTAL, 0),
                Patch(3, HIGHEST, 0),
                Patch(2, TOTAL, 65_535),
                Patch(2, HIGHEST, 65_535),
            ],
        ),
    ];
    CASES
}

// Rule 4: the chain from segment 1 meets each of 1 to H exactly once and ends. H is 3 unless it is changed.
pub fn chains() -> &'static [Case] {
    const CASES: &[Case] = &[
        // 05 4: Segment 1 is met again.
        Case("1 leads to 1", USUAL, &[Patch(1, NEXT, 1)]),
        // 05 4: The chain does not end.
        Case(
            "1 leads to 1, highest 1",
            USUAL,
            &[Patch(1, HIGHEST, 1), Patch(1, NEXT, 1)],
        ),
        // 05 4: 1, 3, 1 does not end, and never meets 2.
        Case("3 leads to 1", USUAL, &[Patch(3, NEXT, 1)]),
        // 05 4: 1, 3, 2, 1 meets all, but does not end.
        Case("2 leads to 1", USUAL, &[Patch(2, NEXT, 1)]),
        // 05 4: 1, 3, 2, 3 meets all, but does not end.
        Case("2 leads to 3", USUAL, &[Patch(2, NEXT, 3)]),
        // 05 4: The chain does not end.
        Case(
            "1 to 2 to 1, highest 2",
            USUAL,
            &[Patch(1, HIGHEST, 2), Patch(1, NEXT, 2), Patch(2, NEXT, 1)],
        ),
        // 05 4: The chain does not end, and never meets 3.
        Case(
            "1 to 2 to 1, highest 3",
            USUAL,
            &[Patch(1, NEXT, 2), Patch(2, NEXT, 1)],
        ),
        // 05 4: There is no segment 5.
        Case("3 leads to 5", USUAL, &[Patch(3, NEXT, 5)]),
        // 05 4: There is no such segment.
        Case("3 leads to 65,535", USUAL, &[Patch(3, NEXT, 65_535)]),
        // 05 4: The link is a whole word, and not its low byte 3.
        Case("1 leads to 259", USUAL, &[Patch(1, NEXT, 259)]),
        // 05 4: Segments 2 and 3 are never met.
        Case("1 leads to 0", USUAL, &[Patch(1, NEXT, 0)]),
        // 05 4: Segment 2 is never met.
        Case("3 leads to 0", USUAL, &[Patch(3, NEXT, 0)]),
        // 05 4: Segment 4 is never met.
        Case("highest 4", USUAL, &[Patch(1, HIGHEST, 4)]),
        // 05 4: 1, 3, 2 passes through segment 3, which is above H.
        Case("highest 2", USUAL, &[Patch(1, HIGHEST, 2)]),
        // 05 4: The chain goes on to segment 3, which is above H.
        Case("highest 1", USUAL, &[Patch(1, HIGHEST, 1)]),
        // 05 4: The chain passes through segment 4, which is above H; nothing else is wrong.
        Case(
            "1 to 4 to 3 to 2",
            USUAL,
            &[
                Patch(1, NEXT, 4),
                Patch(4, NEXT, 3),
                Patch(4, START, 54),
                Patch(4, FIRST, 2048),
            ],
        ),
        // 05 4: Three segments, but 4 is above H, and 2 is never met.
        Case(
            "1 to 3 to 4",
            USUAL,
            &[
                Patch(3, NEXT, 4),
                Patch(4, START, 74),
                Patch(4, FIRST, 512),
                Patch(4, FIRST + LENGTH, 26),
                Patch(4, SECOND, 2048),
            ],
        ),
    ];
    CASES
}

// Rule 5: the number of extra bytes is even, at most 64, and the same along the chain.
pub fn extra_bytes() -> &'static [Case] {
    const CASES: &[Case] = &[
        // 00: Even, and the entries of 16 bytes are in their places.
        Case("2 extra bytes", Disk(System(2), 100, &[]), &[]),
        // 00: 64 is the most; entries of 78 bytes.
        Case("64 extra bytes", Disk(System(64), 100, &[]), &[]),
        // 05 5: Odd.
        Case("1 extra byte", Disk(System(1), 100, &[]), &[]),
        // 05 5: Odd.
        Case("63 extra bytes", Disk(System(63), 100, &[]), &[]),
        // 05 5: Odd, and above 64.
        Case("65 extra bytes", Disk(System(65), 100, &[]), &[]),
        // 05 5: Above 64.
        Case("66 extra bytes", Disk(System(66), 100, &[]), &[]),
        // 05 5: Above 64: a whole word, and not its low byte 0.
        Case(
            "256 extra bytes",
            USUAL,
            &[
                Patch(1, EXTRA, 256),
                Patch(3, EXTRA, 256),
                Patch(2, EXTRA, 256),
            ],
        ),
        // 05 5: Above 64.
        Case(
            "65,534 extra bytes",
            USUAL,
            &[
                Patch(1, EXTRA, 65_534),
                Patch(3, EXTRA, 65_534),
                Patch(2, EXTRA, 65_534),
            ],
        ),
        // 05 5: Not the same in segment 3.
        Case(
            "2 extra bytes in segment 1 alone",
            USUAL,
            &[Patch(1, EXTRA, 2)],
        ),
        // 05 5: Not the same as in segment 1.
        Case(
            "2 extra bytes in segment 3 alone",
            USUAL,
            &[Patch(3, EXTRA, 2)],
        ),
        // 05 5: Not the same as in segment 1.
        Case(
            "2 extra bytes in segment 2 alone",
            USUAL,
            &[Patch(2, EXTRA, 2)],
        ),
        // 00: Segment 4 is not in the chain.
        Case(
            "2 extra bytes in segment 4 alone",
            USUAL,
            &[Patch(4, EXTRA, 2)],
        ),
        // 05 6: The second status is sought at byte 26, where the first name word of an empty stands: 0.
        Case(
            "2 extra bytes, entries of 14",
            USUAL,
            &[Patch(1, EXTRA, 2), Patch(3, EXTRA, 2), Patch(2, EXTRA, 2)],
        ),
        // 05 6: The second status is sought at byte 88, behind the end: 0.
        Case(
            "64 extra bytes, entries of 14",
            USUAL,
            &[
                Patch(1, EXTRA, 64),
                Patch(3, EXTRA, 64),
                Patch(2, EXTRA, 64),
            ],
        ),
    ];
    CASES
}

// Rule 6: a segment has at most 1,012 div (14 + x) entries, each of one of the four statuses, then the word 2,048.
// Without an open output no entry is tentative.
pub fn entries() -> &'static [Case] {
    const CASES: &[Case] = &[
        // 05 6: None of the four.
        Case("status 0", USUAL, &[Patch(1, SECOND, 0)]),
        // 05 6: None of the four: 1,024 is a bit of the high byte.
        Case("status 4", USUAL, &[Patch(1, FIRST, 4)]),
        // 05 6: Tentative and empty at once.
        Case("status 768", USUAL, &[Patch(1, SECOND, 768)]),
        // 05 6: Permanent and empty at once.
        Case("status 1,536", USUAL, &[Patch(1, SECOND, 1536)]),
        // 05 6: Permanent with a bit of the low byte.
        Case("status 1,025", USUAL, &[Patch(1, FIRST, 1025)]),
        // 05 6: Protected, but not permanent.
        Case("status 32,768", USUAL, &[Patch(3, FIRST, 32_768)]),
        // 05 6: A protected empty.
        Case("status 33,280", USUAL, &[Patch(2, THIRD, 33_280)]),
        // 05 6: A protected tentative entry.
        Case("status 33,024", USUAL, &[Patch(3, SECOND, 33_024)]),
        // 05 6: All bits.
        Case("status 65,535", USUAL, &[Patch(2, SECOND, 65_535)]),
        // 05 6: 2,048 with another bit ends no segment.
        Case("end 34,816", USUAL, &[Patch(1, FOURTH, 34_816)]),
        // 05 6: 2,048 with the bit of an empty ends no segment.
        Case("end 2,560", USUAL, &[Patch(3, THIRD, 2560)]),
        // 05 6: 2,048 with the bit of a permanent entry ends no segment.
        Case("end 3,072", USUAL, &[Patch(2, FOURTH, 3072)]),
        // 05 6: 2,048 with another bit ends no segment.
        Case("end 2,049", USUAL, &[Patch(2, FOURTH, 2049)]),
        // 05 6: Behind the third entry stands 0, which is no status.
        Case("no end in segment 1", USUAL, &[Patch(1, FOURTH, 0)]),
        // 05 6: Behind the third entry stands 0, which is no status.
        Case("no end in segment 2", USUAL, &[Patch(2, FOURTH, 0)]),
        // 00: A protected file of segment 3 made a plain one, and the reverse in segment 1.
        Case(
            "protected and permanent",
            USUAL,
            &[Patch(1, FIRST, 33_792), Patch(3, FIRST, 1024)],
        ),
        // 00: 1,012 div 14 = 72; the end is at 10 + 72 × 14 = 1,018. 8 + 71 + 21 = 100.
        Case("72 entries of 14 bytes", Disk(Full(0), 100, &[]), &[]),
        // 00: 1,012 div 16 = 63; the end is at 10 + 63 × 16 = 1,018. 8 + 62 + 30 = 100.
        Case("63 entries of 16 bytes", Disk(Full(2), 100, &[]), &[]),
        // 00: 1,012 div 78 = 12; the end is at 10 + 12 × 78 = 946. 8 + 11 + 81 = 100.
        Case("12 entries of 78 bytes", Disk(Full(64), 100, &[]), &[]),
        // 00: The last is at 10 + 70 × 14 = 990, and the end at 1,004. 8 + 70 + 22 = 100.
        Case(
            "71 entries of 14 bytes",
            Disk(Full(0), 100, &[]),
            &[Patch(1, 998, 22), Patch(1, 1004, 2048)],
        ),
        // 05 6: Behind the most entries stands no end.
        Case(
            "72 entries, end 0",
            Disk(Full(0), 100, &[]),
            &[Patch(1, 1018, 0)],
        ),
        // 05 6: 2,048 with another bit ends no segment.
        Case(
            "72 entries, end 34,816",
            Disk(Full(0), 100, &[]),
            &[Patch(1, 1018, 34_816)],
        ),
        // 05 6: At most 72: behind them stands an empty.
        Case(
            "73rd entry of 14 bytes",
            Disk(Full(0), 100, &[]),
            &[Patch(1, 1018, 512)],
        ),
        // 05 6: At most 63: behind them stands a permanent entry.
        Case(
            "64th entry of 16 bytes",
            Disk(Full(2), 100, &[]),
            &[Patch(1, 1018, 1024)],
        ),
        // 05 6: At most 12: it would fill the segment to its last byte, with no room for the end.
        Case(
            "13th entry of 78 bytes",
            Disk(Full(64), 100, &[]),
            &[Patch(1, 946, 512)],
        ),
        // 05 6: No output is open.
        Case("tentative for an empty", USUAL, &[Patch(1, SECOND, 256)]),
        // 05 6: No output is open.
        Case("tentative for a file", USUAL, &[Patch(3, SECOND, 256)]),
        // 05 6: No output is open.
        Case(
            "tentative in the last segment",
            USUAL,
            &[Patch(2, FIRST, 256)],
        ),
        // 00: The end of segment 1 is at 52, that of segment 3 at 38: nothing behind them counts.
        Case(
            "tentative behind the end",
            USUAL,
            &[Patch(1, 54, 256), Patch(1, 66, 256), Patch(3, FOURTH, 256)],
        ),
        // 00: The end is at 946: nothing behind it counts.
        Case(
            "tentative behind a full segment",
            Disk(Full(64), 100, &[]),
            &[Patch(1, 948, 256)],
        ),
        // 00: Segment 4 is not in the chain.
        Case(
            "tentative in a segment not in use",
            USUAL,
            &[Patch(4, FIRST, 256), Patch(4, FIRST + LENGTH, 10)],
        ),
        // 00: Segment 3 begins at 14 too, and 14 + 6 + 54 = 74.
        Case(
            "no entries in segment 1",
            USUAL,
            &[
                Patch(1, FIRST, 2048),
                Patch(3, START, 14),
                Patch(3, SECOND + LENGTH, 54),
            ],
        ),
        // 00: Segment 2 begins at 54 too, and 54 + 5 + 1 + 40 = 100.
        Case(
            "no entries in segment 3",
            USUAL,
            &[
                Patch(3, FIRST, 2048),
                Patch(2, START, 54),
                Patch(2, THIRD + LENGTH, 40),
            ],
        ),
        // 00: 54 + 6 + 40 = 100, where segment 2 begins.
        Case(
            "no entries in segment 2",
            USUAL,
            &[
                Patch(2, FIRST, 2048),
                Patch(2, START, 100),
                Patch(3, SECOND + LENGTH, 40),
            ],
        ),
        // 05 7: Every segment begins at 14, but the last ends there too, and not at 100.
        Case(
            "no entries at all",
            USUAL,
            &[
                Patch(1, FIRST, 2048),
                Patch(3, FIRST, 2048),
                Patch(3, START, 14),
                Patch(2, FIRST, 2048),
                Patch(2, START, 14),
            ],
        ),
    ];
    CASES
}

// Rule 7: segment 1 begins at 6 + 2S = 14, each later one where the one before ends, and the last ends where the
// volume does. Sums are not cut to 16 bits.
pub fn places() -> &'static [Case] {
    const CASES: &[Case] = &[
        // 05 7: It begins at 14.
        Case("segment 1 at 13", USUAL, &[Patch(1, START, 13)]),
        // 05 7: It begins at 14.
        Case("segment 1 at 15", USUAL, &[Patch(1, START, 15)]),
        // 05 7: It begins at 14, though 13 + 27 = 40.
        Case(
            "segment 1 at 13, ends at 54",
            USUAL,
            &[Patch(1, START, 13), Patch(1, FIRST + LENGTH, 27)],
        ),
        // 05 7: 6 + 2 × 3 = 12.
        Case("3 segments, segment 1 at 14", USUAL, &[Patch(1, TOTAL, 3)]),
        // 05 7: Segment 1 ends at 54.
        Case("segment 3 at 55", USUAL, &[Patch(3, START, 55)]),
        // 05 7: Segment 1 ends at 54.
        Case("segment 3 at 53", USUAL, &[Patch(3, START, 53)]),
        // 05 7: Segment 1 ends at 54.
        Case("segment 3 at 0", USUAL, &[Patch(3, START, 0)]),
        // 05 7: Segment 3 ends at 74.
        Case("segment 2 at 73", USUAL, &[Patch(2, START, 73)]),
        // 05 7: Segment 3 ends at 74: starts go along the chain, and not by the number of the segment.
        Case("segment 2 at 54", USUAL, &[Patch(2, START, 54)]),
        // 05 7: Segment 2 begins at 74, and segment 1 ends at 54.
        Case(
            "chain 1, 2, 3, starts as they were",
            USUAL,
            &[Patch(1, NEXT, 2), Patch(2, NEXT, 3), Patch(3, NEXT, 0)],
        ),
        // 05 7: It has no entries, and segment 2 ends at 100.
        Case(
            "segment 4 at 99",
            USUAL,
            &[
                Patch(1, HIGHEST, 4),
                Patch(2, NEXT, 4),
                Patch(4, START, 99),
                Patch(4, FIRST, 2048),
            ],
        ),
        // 05 7: 80 + 19 = 99.
        Case("ends at 99", USUAL, &[Patch(2, THIRD + LENGTH, 19)]),
        // 05 7: 80 + 21 = 101.
        Case("ends at 101", USUAL, &[Patch(2, THIRD + LENGTH, 21)]),
        // 05 7: The volume has 99 blocks.
        Case("ends at 100 of 99", Disk(System(0), 99, &[]), &[]),
        // 05 7: The volume has 101 blocks.
        Case("ends at 100 of 101", Disk(System(0), 101, &[]), &[]),
        // 05 7: The volume has 15 blocks, which is enough for 4 segments.
        Case("ends at 100 of 15", Disk(System(0), 15, &[]), &[]),
        // 05 7: Segment 1 ends at 55, and segment 3 begins at 54.
        Case(
            "a block too many in segment 1",
            USUAL,
            &[Patch(1, SECOND + LENGTH, 5)],
        ),
        // 05 7: The last still ends at 100, but segment 1 ends at 55, and segment 3 begins at 54.
        Case(
            "a block from segment 3 to 1",
            USUAL,
            &[Patch(1, SECOND + LENGTH, 5), Patch(3, FIRST + LENGTH, 5)],
        ),
        // 00: 14 + 26 + 5 + 9 = 54.
        Case(
            "a block within segment 1",
            USUAL,
            &[Patch(1, SECOND + LENGTH, 5), Patch(1, THIRD + LENGTH, 9)],
        ),
        // 00: 54 + 0 + 20 = 74.
        Case(
            "file of 0 blocks",
            USUAL,
            &[Patch(3, FIRST + LENGTH, 0), Patch(3, SECOND + LENGTH, 20)],
        ),
        // 00: 14 + 26 + 0 + 14 = 54.
        Case(
            "empty of 0 blocks",
            USUAL,
            &[Patch(1, SECOND + LENGTH, 0), Patch(1, THIRD + LENGTH, 14)],
        ),
        // 05 7: 74 + 32,773 + 1 + 32,788 = 65,636 = 65,536 + 100.
        Case(
            "last sum wraps to 100",
            USUAL,
            &[
                Patch(2, FIRST + LENGTH, 32_773),
                Patch(2, THIRD + LENGTH, 32_788),
            ],
        ),
        // 05 7: 74 + 65,535 + 1 + 26 = 65,636 = 65,536 + 100.
        Case(
            "last sum wraps by one length",
            USUAL,
            &[
                Patch(2, FIRST + LENGTH, 65_535),
                Patch(2, THIRD + LENGTH, 26),
            ],
        ),
        // 05 7: 14 + 32,794 + 4 + 32,778 = 65,590 = 65,536 + 54.
        Case(
            "first sum wraps to 54",
            USUAL,
            &[
                Patch(1, FIRST + LENGTH, 32_794),
                Patch(1, THIRD + LENGTH, 32_778),
            ],
        ),
        // 05 7: 54 + 6 + 65,535 + 15 = 65,610 = 65,536 + 74, with an empty added.
        Case(
            "middle sum wraps to 74",
            USUAL,
            &[
                Patch(3, SECOND + LENGTH, 65_535),
                Patch(3, THIRD, 512),
                Patch(3, THIRD + LENGTH, 15),
                Patch(3, FOURTH, 2048),
            ],
        ),
    ];
    CASES
}

// Rule 8: the name words of permanent entries are below 64,000.
pub fn name_words() -> &'static [Case] {
    const CASES: &[Case] = &[
        // 05 8: In a permanent entry.
        Case(
            "first word 64,000",
            USUAL,
            &[Patch(1, FIRST + NAME, 64_000)],
        ),
        // 05 8: In a permanent entry.
        Case(
            "second word 64,000",
            USUAL,
            &[Patch(1, FIRST + NAME_2, 64_000)],
        ),
        // 05 8: In a permanent entry.
        Case(
            "third word 64,000",
            USUAL,
            &[Patch(1, FIRST + KIND, 64_000)],
        ),
        // 05 8: In a permanent entry.
        Case(
            "first word 65,535",
            USUAL,
            &[Patch(1, THIRD + NAME, 65_535)],
        ),
        // 05 8: A protected entry is permanent too.
        Case(
            "protected, second word 64,000",
            USUAL,
            &[Patch(3, FIRST + NAME_2, 64_000)],
        ),
        // 05 8: In the last permanent entry.
        Case(
            "last file, third word 64,000",
            USUAL,
            &[Patch(2, SECOND + KIND, 64_000)],
        ),
        // 00: 999999.999 is a name, and no other has it.
        Case(
            "words of 63,999",
            USUAL,
            &[
                Patch(1, FIRST + NAME, 63_999),
                Patch(1, FIRST + NAME_2, 63_999),
                Patch(1, FIRST + KIND, 63_999),
            ],
        ),
        // 00: The name words of an empty may be any.
        Case(
            "empty, words of 64,000",
            USUAL,
            &[
                Patch(1, SECOND + NAME, 64_000),
                Patch(1, SECOND + NAME_2, 64_000),
                Patch(1, SECOND + KIND, 64_000),
            ],
        ),
        // 00: The name words of an empty may be any.
        Case(
            "empty, words of 65,535",
            USUAL,
            &[
                Patch(2, THIRD + NAME, 65_535),
                Patch(2, THIRD + NAME_2, 65_535),
                Patch(2, THIRD + KIND, 65_535),
            ],
        ),
        // 00: No lawful name, but below 64,000; that the empties have the same words does not count.
        Case(
            "words of 0",
            USUAL,
            &[
                Patch(1, FIRST + NAME, 0),
                Patch(1, FIRST + NAME_2, 0),
                Patch(1, FIRST + KIND, 0),
            ],
        ),
        // 00: The end of segment 3 is at 38: the entry behind it does not count.
        Case(
            "64,000 behind the end",
            USUAL,
            &[Patch(3, FOURTH, 1024), Patch(3, FOURTH + NAME, 64_000)],
        ),
    ];
    CASES
}

// Rule 9: no two permanent entries have one name.
pub fn names() -> &'static [Case] {
    const CASES: &[Case] = &[
        // 05 9: RT11SJ.SYS renamed.
        Case(
            "SWAP.SYS twice in segment 1",
            USUAL,
            &[
                Patch(1, THIRD + NAME, 31_321),
                Patch(1, THIRD + NAME_2, 25_600),
            ],
        ),
        // 05 9: STARTS.COM renamed.
        Case(
            "SWAP.SYS in segments 1 and 2",
            USUAL,
            &[
                Patch(2, SECOND + NAME, 31_321),
                Patch(2, SECOND + NAME_2, 25_600),
                Patch(2, SECOND + KIND, 31_419),
            ],
        ),
        // 05 9: PIP.SAV renamed.
        Case(
            "SWAP.SYS in segments 1 and 3",
            USUAL,
            &[
                Patch(3, SECOND + NAME, 31_321),
                Patch(3, SECOND + NAME_2, 25_600),
                Patch(3, SECOND + KIND, 31_419),
            ],
        ),
        // 05 9: STARTS.COM renamed.
        Case(
            "PIP.SAV in segments 3 and 2",
            USUAL,
            &[
                Patch(2, SECOND + NAME, 25_976),
                Patch(2, SECOND + NAME_2, 0),
                Patch(2, SECOND + KIND, 30_462),
            ],
        ),
        // 05 9: PIP.SAV renamed.
        Case(
            "DD.SYS protected and not",
            USUAL,
            &[
                Patch(3, SECOND + NAME, 6560),
                Patch(3, SECOND + NAME_2, 0),
                Patch(3, SECOND + KIND, 31_419),
            ],
        ),
        // 05 9: SWAP.SYS renamed and protected.
        Case(
            "DD.SYS protected twice",
            USUAL,
            &[
                Patch(1, FIRST, 33_792),
                Patch(1, FIRST + NAME, 6560),
                Patch(1, FIRST + NAME_2, 0),
            ],
        ),
        // 05 9: No lawful name, but one name.
        Case(
            "words of 0 twice",
            USUAL,
            &[
                Patch(1, FIRST + NAME, 0),
                Patch(1, FIRST + NAME_2, 0),
                Patch(1, FIRST + KIND, 0),
                Patch(3, SECOND + NAME, 0),
                Patch(3, SECOND + NAME_2, 0),
                Patch(3, SECOND + KIND, 0),
            ],
        ),
        // 00: An empty has no name.
        Case(
            "SWAP.SYS and an empty",
            USUAL,
            &[
                Patch(1, SECOND + NAME, 31_321),
                Patch(1, SECOND + NAME_2, 25_600),
                Patch(1, SECOND + KIND, 31_419),
            ],
        ),
        // 00: An empty has no name.
        Case(
            "two empties SWAP.COM",
            USUAL,
            &[
                Patch(2, FIRST + NAME, 31_321),
                Patch(2, FIRST + NAME_2, 25_600),
                Patch(2, FIRST + KIND, 5413),
                Patch(2, THIRD + NAME, 31_321),
                Patch(2, THIRD + NAME_2, 25_600),
                Patch(2, THIRD + KIND, 5413),
            ],
        ),
        // 00: The third words differ.
        Case(
            "SWAP.SYS and SWAP.SAV",
            USUAL,
            &[
                Patch(1, THIRD + NAME, 31_321),
                Patch(1, THIRD + NAME_2, 25_600),
                Patch(1, THIRD + KIND, 30_462),
            ],
        ),
        // 00: The second words differ.
        Case(
            "SWAP.SYS and SWA1SJ.SYS",
            USUAL,
            &[Patch(1, THIRD + NAME, 31_321)],
        ),
        // 00: The first words differ.
        Case(
            "SWAP.SYS and RT1P.SYS",
            USUAL,
            &[Patch(1, THIRD + NAME_2, 25_600)],
        ),
        // 00: The end of segment 3 is at 38: the entry behind it does not count.
        Case(
            "SWAP.SYS behind the end",
            USUAL,
            &[
                Patch(3, FOURTH, 1024),
                Patch(3, FOURTH + NAME, 31_321),
                Patch(3, FOURTH + NAME_2, 25_600),
                Patch(3, FOURTH + KIND, 31_419),
            ],
        ),
        // 00: Segment 4 is not in the chain.
        Case(
            "SWAP.SYS in a segment not in use",
            USUAL,
            &[
                Patch(4, FIRST, 1024),
                Patch(4, FIRST + NAME, 31_321),
                Patch(4, FIRST + NAME_2, 25_600),
                Patch(4, FIRST + KIND, 31_419),
            ],
        ),
    ];
    CASES
}

// Several rules broken at once: the lowest is told, wherever in the chain it is broken.
pub fn several() -> &'static [Case] {
    const CASES: &[Case] = &[
        // 05 8: SWAP.SYS twice, and a word of 64,000 behind them.
        Case(
            "rules 8 and 9",
            USUAL,
            &[
                Patch(3, SECOND + NAME, 31_321),
                Patch(3, SECOND + NAME_2, 25_600),
                Patch(3, SECOND + KIND, 31_419),
                Patch(2, SECOND + NAME, 64_000),
            ],
        ),
        // 05 8: Two files with the same words of 64,000.
        Case(
            "rules 8 and 9 in one name",
            USUAL,
            &[
                Patch(1, FIRST + NAME, 64_000),
                Patch(1, THIRD + NAME, 64_000),
                Patch(1, THIRD + NAME_2, 25_600),
            ],
        ),
        // 05 7: SWAP.SYS twice in segment 1; the last segment ends at 99.
        Case(
            "rules 7 and 9",
            USUAL,
            &[
                Patch(1, THIRD + NAME, 31_321),
                Patch(1, THIRD + NAME_2, 25_600),
                Patch(2, THIRD + LENGTH, 19),
            ],
        ),
        // 05 7: A word of 64,000 in segment 1; the last segment ends at 99.
        Case(
            "rules 7 and 8",
            USUAL,
            &[Patch(1, FIRST + NAME, 64_000), Patch(2, THIRD + LENGTH, 19)],
        ),
        // 05 6: SWAP.SYS twice in segment 1; a tentative entry in the last.
        Case(
            "rules 6 and 9",
            USUAL,
            &[
                Patch(1, THIRD + NAME, 31_321),
                Patch(1, THIRD + NAME_2, 25_600),
                Patch(2, THIRD, 256),
            ],
        ),
        // 05 6: A word of 64,000 in segment 1; no end in the last.
        Case(
            "rules 6 and 8",
            USUAL,
            &[Patch(1, FIRST + NAME, 64_000), Patch(2, FOURTH, 0)],
        ),
        // 05 6: Segment 1 begins at 13; no end in the last.
        Case(
            "rules 6 and 7, no end",
            USUAL,
            &[Patch(1, START, 13), Patch(2, FOURTH, 0)],
        ),
        // 05 6: Segment 1 begins at 13; a tentative entry in the last.
        Case(
            "rules 6 and 7, tentative",
            USUAL,
            &[Patch(1, START, 13), Patch(2, FIRST, 256)],
        ),
        // 05 5: SWAP.SYS twice in segment 1; 2 extra bytes in the last.
        Case(
            "rules 5 and 9",
            USUAL,
            &[
                Patch(1, THIRD + NAME, 31_321),
                Patch(1, THIRD + NAME_2, 25_600),
                Patch(2, EXTRA, 2),
            ],
        ),
        // 05 5: A tentative entry in segment 1; 1 extra byte in the last.
        Case(
            "rules 5 and 6",
            USUAL,
            &[Patch(1, SECOND, 256), Patch(2, EXTRA, 1)],
        ),
        // 05 5: Segment 1 begins at 13; 66 extra bytes.
        Case(
            "rules 5 and 7",
            Disk(System(66), 100, &[]),
            &[Patch(1, START, 13)],
        ),
        // 05 4: 1 extra byte; segment 3 leads back to 1.
        Case(
            "rules 4 and 5",
            Disk(System(1), 100, &[]),
            &[Patch(3, NEXT, 1)],
        ),
        // 05 4: A status of 0 in segment 1; segment 3 leads to 0.
        Case(
            "rules 4 and 6",
            USUAL,
            &[Patch(1, FIRST, 0), Patch(3, NEXT, 0)],
        ),
        // 05 3: H is 5; segment 1 leads to 0.
        Case(
            "rules 3 and 4",
            USUAL,
            &[Patch(1, HIGHEST, 5), Patch(1, NEXT, 0)],
        ),
        // 05 3: H is 0; SWAP.SYS twice.
        Case(
            "rules 3 and 9",
            USUAL,
            &[
                Patch(1, HIGHEST, 0),
                Patch(2, SECOND + NAME, 31_321),
                Patch(2, SECOND + NAME_2, 25_600),
                Patch(2, SECOND + KIND, 31_419),
            ],
        ),
        // 05 2: S is 32; H is 0.
        Case(
            "rules 2 and 3",
            USUAL,
            &[Patch(1, TOTAL, 32), Patch(1, HIGHEST, 0)],
        ),
        // 05 7: Segment 1 begins at 13; two files with the same words of 64,000.
        Case(
            "rules 7 to 9",
            USUAL,
            &[
                Patch(1, START, 13),
                Patch(1, FIRST + NAME, 64_000),
                Patch(1, THIRD + NAME, 64_000),
                Patch(1, THIRD + NAME_2, 25_600),
            ],
        ),
        // 05 6: As before, with a tentative entry.
        Case(
            "rules 6 to 9",
            USUAL,
            &[
                Patch(1, START, 13),
                Patch(1, SECOND, 256),
                Patch(1, FIRST + NAME, 64_000),
                Patch(1, THIRD + NAME, 64_000),
                Patch(1, THIRD + NAME_2, 25_600),
            ],
        ),
        // 05 5: As before, with 1 extra byte in the last segment.
        Case(
            "rules 5 to 9",
            USUAL,
            &[
                Patch(1, START, 13),
                Patch(1, SECOND, 256),
                Patch(2, EXTRA, 1),
                Patch(1, FIRST + NAME, 64_000),
                Patch(1, THIRD + NAME, 64_000),
                Patch(1, THIRD + NAME_2, 25_600),
            ],
        ),
        // 05 4: As before, and segment 2 leads to 1.
        Case(
            "rules 4 to 9",
            USUAL,
            &[
                Patch(1, START, 13),
                Patch(1, SECOND, 256),
                Patch(2, EXTRA, 1),
                Patch(2, NEXT, 1),
                Patch(1, FIRST + NAME, 64_000),
                Patch(1, THIRD + NAME, 64_000),
                Patch(1, THIRD + NAME_2, 25_600),
            ],
        ),
        // 05 3: As before, with H = 0.
        Case(
            "rules 3 to 9",
            USUAL,
            &[
                Patch(1, START, 13),
                Patch(1, SECOND, 256),
                Patch(2, EXTRA, 1),
                Patch(2, NEXT, 1),
                Patch(1, HIGHEST, 0),
                Patch(1, FIRST + NAME, 64_000),
                Patch(1, THIRD + NAME, 64_000),
                Patch(1, THIRD + NAME_2, 25_600),
            ],
        ),
        // 05 2: As before, with S = 0.
        Case(
            "rules 2 to 9",
            USUAL,
            &[
                Patch(1, START, 13),
                Patch(1, SECOND, 256),
                Patch(2, EXTRA, 1),
                Patch(2, NEXT, 1),
                Patch(1, HIGHEST, 0),
                Patch(1, TOTAL, 0),
                Patch(1, FIRST + NAME, 64_000),
                Patch(1, THIRD + NAME, 64_000),
                Patch(1, THIRD + NAME_2, 25_600),
            ],
        ),
    ];
    CASES
}

// A workspace of 32,767 bytes, one too few, which comes before all else.
pub fn small_workspace() -> &'static [Case] {
    const CASES: &[Case] = &[
        // 18 0: The volume is sound.
        Case("workspace 32,767", USUAL, &[]),
        // 18 0: Before rule 1.
        Case("workspace 32,767, 8 blocks", Disk(System(0), 8, &[]), &[]),
        // 18 0: Before block 6 is read.
        Case("workspace 32,767, 6 bad", Disk(System(0), 100, &[6]), &[]),
        // 18 0: Before rule 2.
        Case("workspace 32,767, 0 segments", USUAL, &[Patch(1, TOTAL, 0)]),
    ];
    CASES
}
