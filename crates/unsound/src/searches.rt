// LOOKUP and READ on the volume of 3 segments in use. The comment of each search says what must be told and why.
use crate::patches::*;

// A file to be looked up, or one block of it to be read, with a workspace of so many bytes.
#[derive(Clone, Copy)]
pub struct Search {
    pub label: &'static str,
    pub name: &'static [u8; 9],
    pub block: Option<u16>,
    pub workspace: usize,
    pub bad: &'static [u32],
    pub patches: &'static [Patch],
}

// The last byte of each block behind the directory is its number, which READ shows. Dates: 3,117 is 01-Mar-1985, 13,311 is
// 31-Dec-2003.
pub fn searches() -> &'static [Search] {
    const CASES: &[Search] = &[
        // 00 start 14 length 26 date 3117: The first file.
        Search {
            label: "LOOKUP SWAP.SYS",
            name: b"SWAP  SYS",
            block: None,
            workspace: 32_768,
            bad: &[],
            patches: &[],
        },
        // 00 start 44 length 10 date 13311: 14 + 26 + 4 = 44.
        Search {
            label: "LOOKUP RT11SJ.SYS",
            name: b"RT11SJSYS",
            block: None,
            workspace: 32_768,
            bad: &[],
            patches: &[],
        },
        // 00 start 54 length 6 date 3117: The first of segment 3; a protected file is found too.
        Search {
            label: "LOOKUP DD.SYS",
            name: b"DD    SYS",
            block: None,
            workspace: 32_768,
            bad: &[],
            patches: &[],
        },
        // 00 start 60 length 14 date 0: 54 + 6 = 60.
        Search {
            label: "LOOKUP PIP.SAV",
            name: b"PIP   SAV",
            block: None,
            workspace: 32_768,
            bad: &[],
            patches: &[],
        },
        // 00 start 79 length 1 date 3117: 74 + 5 = 79.
        Search {
            label: "LOOKUP STARTS.COM",
            name: b"STARTSCOM",
            block: None,
            workspace: 32_768,
            bad: &[],
            patches: &[],
        },
        // 00 start 54 length 0 date 3117: 54 + 0 + 20 = 74.
        Search {
            label: "LOOKUP DD.SYS of 0 blocks",
            name: b"DD    SYS",
            block: None,
            workspace: 32_768,
            bad: &[],
            patches: &[Patch(3, FIRST + LENGTH, 0), Patch(3, SECOND + LENGTH, 20)],
        },
        // 07 0: No such file.
        Search {
            label: "LOOKUP NONE",
            name: b"NONE     ",
            block: None,
            workspace: 32_768,
            bad: &[],
            patches: &[],
        },
        // 07 0: The types differ.
        Search {
            label: "LOOKUP SWAP.SAV",
            name: b"SWAP  SAV",
            block: None,
            workspace: 32_768,
            bad: &[],
            patches: &[],
        },
        // 07 0: The types differ.
        Search {
            label: "LOOKUP SWAP",
            name: b"SWAP     ",
            block: None,
            workspace: 32_768,
            bad: &[],
            patches: &[],
        },
        // 07 0: An empty is no file: NON and E are 23,014 and 8,000.
        Search {
            label: "LOOKUP of an empty",
            name: b"NONE     ",
            block: None,
            workspace: 32_768,
            bad: &[],
            patches: &[
                Patch(1, SECOND + NAME, 23_014),
                Patch(1, SECOND + NAME_2, 8000),
            ],
        },
        // 07 0: The end of segment 3 is at 38.
        Search {
            label: "LOOKUP behind the end",
            name: b"NONE     ",
            block: None,
            workspace: 32_768,
            bad: &[],
            patches: &[
                Patch(3, FOURTH, 1024),
                Patch(3, FOURTH + NAME, 23_014),
                Patch(3, FOURTH + NAME_2, 8000),
            ],
        },
        // 06 0: A name part is not all blank.
        Search {
            label: "LOOKUP of a blank name",
            name: b"      SYS",
            block: None,
            workspace: 32_768,
            bad: &[],
            patches: &[],
        },
        // 06 0: Names have capital letters.
        Search {
            label: "LOOKUP of small letters",
            name: b"swap  sys",
            block: None,
            workspace: 32_768,
            bad: &[],
            patches: &[],
        },
        // 06 0: Blanks only end a part.
        Search {
            label: "LOOKUP with a blank inside",
            name: b"SW AP SYS",
            block: None,
            workspace: 32_768,
            bad: &[],
            patches: &[],
        },
        // 06 0: The point is no character of a name.
        Search {
            label: "LOOKUP with a point",
            name: b"SWAP.SSYS",
            block: None,
            workspace: 32_768,
            bad: &[],
            patches: &[],
        },
        // 18 0: A workspace has 32,768 bytes or more.
        Search {
            label: "LOOKUP, workspace 32,767",
            name: b"SWAP  SYS",
            block: None,
            workspace: 32_767,
            bad: &[],
            patches: &[],
        },
        // 18 0: A workspace has 32,768 bytes or more.
        Search {
            label: "LOOKUP, workspace 0",
            name: b"SWAP  SYS",
            block: None,
            workspace: 0,
            bad: &[],
            patches: &[],
        },
        // 00 start 14 length 26 date 3117: A workspace may have more.
        Search {
            label: "LOOKUP, workspace 32,769",
            name: b"SWAP  SYS",
            block: None,
            workspace: 32_769,
            bad: &[],
            patches: &[],
        },
        // 18 0: The workspace comes before the name.
        Search {
            label: "LOOKUP of small letters, workspace 32,767",
            name: b"swap  sys",
            block: None,
            workspace: 32_767,
            bad: &[],
            patches: &[],
        },
        // 06 0: The name comes before the level.
        Search {
            label: "LOOKUP of small letters, not sound",
            name: b"swap  sys",
            block: None,
            workspace: 32_768,
            bad: &[],
            patches: &[Patch(1, NEXT, 1)],
        },
        // 05 4: Segment 1 leads to 1; the file would be found.
        Search {
            label: "LOOKUP, not sound",
            name: b"SWAP  SYS",
            block: None,
            workspace: 32_768,
            bad: &[],
            patches: &[Patch(1, NEXT, 1)],
        },
        // 05 7: The level comes before the file.
        Search {
            label: "LOOKUP NONE, not sound",
            name: b"NONE     ",
            block: None,
            workspace: 32_768,
            bad: &[],
            patches: &[Patch(2, START, 73)],
        },
        // 02 13: The level comes before the file.
        Search {
            label: "LOOKUP, 13 bad",
            name: b"SWAP  SYS",
            block: None,
            workspace: 32_768,
            bad: &[13],
            patches: &[],
        },
        // 00 byte 14: Block 14 of the volume.
        Search {
            label: "READ SWAP.SYS 0",
            name: b"SWAP  SYS",
            block: Some(0),
            workspace: 32_768,
            bad: &[],
            patches: &[],
        },
        // 00 byte 39: 14 + 25 = 39, its last block.
        Search {
            label: "READ SWAP.SYS 25",
            name: b"SWAP  SYS",
            block: Some(25),
            workspace: 32_768,
            bad: &[],
            patches: &[],
        },
        // 12 0: One block past the file.
        Search {
            label: "READ SWAP.SYS 26",
            name: b"SWAP  SYS",
            block: Some(26),
            workspace: 32_768,
            bad: &[],
            patches: &[],
        },
        // 12 0: Past the file.
        Search {
            label: "READ SWAP.SYS 65,535",
            name: b"SWAP  SYS",
            block: Some(65_535),
            workspace: 32_768,
            bad: &[],
            patches: &[],
        },
        // 00 byte 61: 60 + 1 = 61.
        Search {
            label: "READ PIP.SAV 1",
            name: b"PIP   SAV",
            block: Some(1),
            workspace: 32_768,
            bad: &[],
            patches: &[],
        },
        // 00 byte 79: Its only block.
        Search {
            label: "READ STARTS.COM 0",
            name: b"STARTSCOM",
            block: Some(0),
            workspace: 32_768,
            bad: &[],
            patches: &[],
        },
        // 12 0: One block past the file.
        Search {
            label: "READ STARTS.COM 1",
            name: b"STARTSCOM",
            block: Some(1),
            workspace: 32_768,
            bad: &[],
            patches: &[],
        },
        // 12 0: It has no block 0.
        Search {
            label: "READ DD.SYS 0 of 0 blocks",
            name: b"DD    SYS",
            block: Some(0),
            workspace: 32_768,
            bad: &[],
            patches: &[Patch(3, FIRST + LENGTH, 0), Patch(3, SECOND + LENGTH, 20)],
        },
        // 02 61: The level block is told, and not the block of the file.
        Search {
            label: "READ PIP.SAV 1, 61 bad",
            name: b"PIP   SAV",
            block: Some(1),
            workspace: 32_768,
            bad: &[61],
            patches: &[],
        },
        // 00 byte 62: Only the block that is read counts.
        Search {
            label: "READ PIP.SAV 2, 61 bad",
            name: b"PIP   SAV",
            block: Some(2),
            workspace: 32_768,
            bad: &[61],
            patches: &[],
        },
        // 12 0: Past the file comes before the block behind it is read.
        Search {
            label: "READ PIP.SAV 14, 74 bad",
            name: b"PIP   SAV",
            block: Some(14),
            workspace: 32_768,
            bad: &[74],
            patches: &[],
        },
        // 07 0: No such file.
        Search {
            label: "READ NONE 0",
            name: b"NONE     ",
            block: Some(0),
            workspace: 32_768,
            bad: &[],
            patches: &[],
        },
        // 07 0: The file comes before its block.
        Search {
            label: "READ NONE 65,535",
            name: b"NONE     ",
            block: Some(65_535),
            workspace: 32_768,
            bad: &[],
            patches: &[],
        },
        // 06 0: A name part is not all blank.
        Search {
            label: "READ a blank name",
            name: b"         ",
            block: Some(0),
            workspace: 32_768,
            bad: &[],
            patches: &[],
        },
        // 18 0: A workspace has 32,768 bytes or more.
        Search {
            label: "READ, workspace 32,767",
            name: b"SWAP  SYS",
            block: Some(0),
            workspace: 32_767,
            bad: &[],
            patches: &[],
        },
        // 05 9: Two files SWAP.SYS.
        Search {
            label: "READ, not sound",
            name: b"SWAP  SYS",
            block: Some(26),
            workspace: 32_768,
            bad: &[],
            patches: &[
                Patch(2, SECOND + NAME, 31_321),
                Patch(2, SECOND + NAME_2, 25_600),
                Patch(2, SECOND + KIND, 31_419),
            ],
        },
    ];
    CASES
}
