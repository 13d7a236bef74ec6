// An open output: rule 6 asks that its tentative entry and the next are as they were left, and that no other is tentative. The
// comment of each case says what the check must tell and why.
use crate::patches::*;
use crate::volumes::entry_start;
use directory::pending::Pending;

// A label; the extra bytes to an entry of the volume of 3 segments in use; the words of an output, opened in segment 2 as its third
// entry; and the words that are changed while it is open. It is a row of a table, so its parts have no names.
#[derive(Clone, Copy)]
pub struct Opened(
    pub &'static str,
    pub u16,
    pub &'static [Patch],
    pub &'static [Patch],
);

// NEW.TMP gets 8 of the last 20 blocks, and the empty keeps 12.
const LEFT: &[Patch] = &[
    Patch(2, THIRD, 256),
    Patch(2, THIRD + NAME, 22_623),
    Patch(2, THIRD + KIND, 32_536),
    Patch(2, THIRD + LENGTH, 8),
    Patch(2, THIRD + DATE, 3117),
    Patch(2, FOURTH, 512),
    Patch(2, FOURTH + LENGTH, 12),
    Patch(2, 66, 2048),
];

// The same among entries of 78 bytes, the third at 166, the fourth at 244, and the end at 322.
const WIDE: &[Patch] = &[
    Patch(2, 166, 256),
    Patch(2, 166 + NAME, 22_623),
    Patch(2, 166 + KIND, 32_536),
    Patch(2, 166 + LENGTH, 8),
    Patch(2, 166 + DATE, 3117),
    Patch(2, 244, 512),
    Patch(2, 244 + LENGTH, 12),
    Patch(2, 322, 2048),
];

// The third and the fourth entry of segment 2, of 14 bytes or more each, with zeros behind them.
pub fn remembered(memory: &[u8], extra: u16) -> Pending {
    let segment = memory.iter().skip(4096).take(entry_start(4, extra));
    let mut entries = [0; 156];
    for (entry, byte) in entries.iter_mut().zip(segment.skip(entry_start(2, extra))) {
        *entry = *byte;
    }
    Pending {
        segment: 2,
        index: 2,
        entries,
    }
}

pub fn opened_outputs() -> &'static [Opened] {
    const CASES: &[Opened] = &[
        // 00: The tentative entry and the next are as they were.
        Opened("output as it was left", 0, LEFT, &[]),
        // 05 6: The tentative entry is not as it was.
        Opened(
            "output, job word changed",
            0,
            LEFT,
            &[Patch(2, THIRD + JOB, 1)],
        ),
        // 05 6: The tentative entry is not as it was.
        Opened(
            "output, name changed",
            0,
            LEFT,
            &[Patch(2, THIRD + NAME_2, 1600)],
        ),
        // 05 6: The tentative entry is not as it was.
        Opened(
            "output, type changed",
            0,
            LEFT,
            &[Patch(2, THIRD + KIND, 5413)],
        ),
        // 05 6: The tentative entry is not as it was.
        Opened(
            "output, date changed",
            0,
            LEFT,
            &[Patch(2, THIRD + DATE, 3118)],
        ),
        // 05 6: Neither entry is as it was, though 80 + 7 + 13 = 100.
        Opened(
            "output, a block to the next",
            0,
            LEFT,
            &[Patch(2, THIRD + LENGTH, 7), Patch(2, FOURTH + LENGTH, 13)],
        ),
        // 05 6: The next entry is not as it was; rule 7 is broken too.
        Opened(
            "output, next one block shorter",
            0,
            LEFT,
            &[Patch(2, FOURTH + LENGTH, 11)],
        ),
        // 05 6: The next entry is not as it was.
        Opened(
            "output, next has a name",
            0,
            LEFT,
            &[Patch(2, FOURTH + NAME, 1)],
        ),
        // 05 6: The next entry is not as it was.
        Opened(
            "output, next has a date",
            0,
            LEFT,
            &[Patch(2, FOURTH + DATE, 3117)],
        ),
        // 05 6: The next entry is not as it was.
        Opened("output, next permanent", 0, LEFT, &[Patch(2, FOURTH, 1024)]),
        // 05 6: There is no next entry.
        Opened(
            "output, next is the end",
            0,
            LEFT,
            &[Patch(2, FOURTH, 2048)],
        ),
        // 05 6: The tentative entry is not as it was.
        Opened("output, entry made empty", 0, LEFT, &[Patch(2, THIRD, 512)]),
        // 05 6: The tentative entry is not as it was.
        Opened(
            "output, entry made permanent",
            0,
            LEFT,
            &[Patch(2, THIRD, 1024)],
        ),
        // 05 6: No other is tentative.
        Opened(
            "output, another tentative entry",
            0,
            LEFT,
            &[Patch(1, SECOND, 256)],
        ),
        // 00: 74 + 4 + 2 = 80 as before, and only the output and the next count.
        Opened(
            "output, entries before it changed",
            0,
            LEFT,
            &[Patch(2, FIRST + LENGTH, 4), Patch(2, SECOND + LENGTH, 2)],
        ),
        // 00: A tentative entry is not permanent. PIP.SAV renamed NEW.TMP.
        Opened(
            "output with the name of a file",
            0,
            LEFT,
            &[
                Patch(3, SECOND + NAME, 22_623),
                Patch(3, SECOND + NAME_2, 0),
                Patch(3, SECOND + KIND, 32_536),
            ],
        ),
        // 05 6: The same entries, but first in their segment: 74 + 8 + 12 + 1 + 5 = 100.
        Opened(
            "output moved in its segment",
            0,
            LEFT,
            &[
                Patch(2, FIRST, 256),
                Patch(2, FIRST + NAME, 22_623),
                Patch(2, FIRST + NAME_2, 0),
                Patch(2, FIRST + KIND, 32_536),
                Patch(2, FIRST + LENGTH, 8),
                Patch(2, FIRST + DATE, 3117),
                Patch(2, SECOND, 512),
                Patch(2, SECOND + NAME, 0),
                Patch(2, SECOND + NAME_2, 0),
                Patch(2, SECOND + KIND, 0),
                Patch(2, SECOND + LENGTH, 12),
                Patch(2, SECOND + DATE, 0),
                Patch(2, THIRD, 1024),
                Patch(2, THIRD + LENGTH, 1),
                Patch(2, FOURTH + LENGTH, 5),
            ],
        ),
        // 05 6: Segment 2 is not in the chain; 14 + 26 + 4 + 56 = 100.
        Opened(
            "output in a segment no longer in use",
            0,
            LEFT,
            &[
                Patch(1, HIGHEST, 1),
                Patch(1, NEXT, 0),
                Patch(1, THIRD + LENGTH, 56),
            ],
        ),
        // 05 5: The job word is changed, and segment 2 has 2 extra bytes.
        Opened(
            "output and rule 5",
            0,
            LEFT,
            &[Patch(2, THIRD + JOB, 1), Patch(2, EXTRA, 2)],
        ),
        // 05 9: The output is as it was; SWAP.SYS twice in segment 1.
        Opened(
            "output and rule 9",
            0,
            LEFT,
            &[
                Patch(1, THIRD + NAME, 31_321),
                Patch(1, THIRD + NAME_2, 25_600),
            ],
        ),
        // 00: The tentative entry and the next are as they were.
        Opened("output with 64 extra bytes", 64, WIDE, &[]),
        // 05 6: The extra bytes of the tentative entry are 180 to 243.
        Opened(
            "output, extra byte changed",
            64,
            WIDE,
            &[Patch(2, 242, 256)],
        ),
        // 05 6: The extra bytes of the next entry are 258 to 321.
        Opened(
            "output, extra byte of the next changed",
            64,
            WIDE,
            &[Patch(2, 320, 256)],
        ),
        // 00: The extra bytes of the entry before are 102 to 165.
        Opened(
            "output, extra byte before it changed",
            64,
            WIDE,
            &[Patch(2, 164, 256)],
        ),
    ];
    CASES
}
