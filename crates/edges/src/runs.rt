// RUN: runs cut short or too long, small workspaces and reports, fields that are refused, and packs on layers.
use crate::memory::{patterned, put, replaced};
use crate::volumes::lay_out;
use device::Device;
use device::image::Image;
use files::pack::Pack;
use run::play::run;
use std::alloc::{AllocError, Global};
use std::process::Abort;
use std::test::Fail;

// The lines of three fields that are accepted.
const ACCEPTED: &[u8] = b"00001 01 00 0000000\n00002 01 00 0000000\n00003 01 00 0000000\n";

// A run, how many bytes of workspace and report it is given, and a number that tells the case in a message.
#[derive(Clone, Copy)]
pub struct Given<'a> {
    pub run: &'a [u8],
    pub work: usize,
    pub room: usize,
    pub case: usize,
}

// The lines and the end of a run.
#[derive(Clone, Copy)]
pub struct Told<'a> {
    pub lines: &'a [u8],
    pub end: u8,
}

// Runs on a pack: the lines and the end are as told, and the report keeps its bytes behind the lines.
pub fn play<D: Device>(
    rt: &(impl Abort + AllocGlobal),
    pack: &mut Pack<D>,
    given: Given,
    told: Told,
) -> Result<(), Fail> {
    let mut work = vec![in rt.alloc(); 0u8; given.work]?;
    let mut report = patterned(rt.alloc(), given.room)?;
    let ran = run(pack, given.run, work.as_mut_slice(), report.as_mut_slice());
    assert_eq!(rt;
        ran.number(),
        told.end,
        "{}; {}; {}",
        given.case,
        given.work,
        given.room
    );
    assert_eq!(rt;
        ran.lines,
        told.lines.len() / 20,
        "{}; {}; {}",
        given.case,
        given.work,
        given.room
    );
    assert!(rt;
        replaced(report.as_slice(), 0, told.lines),
        "{}; {}; {}",
        given.case,
        given.work,
        given.room
    );
    Ok(())
}

// Runs on a pack of 100 blocks, which is left as by INITIALIZE with so many segments, or untouched where there are none.
fn play_on_image(
    rt: &(impl Abort + AllocGlobal),
    bad: &[u32],
    given: Given,
    told: Told,
    segments: u8,
) -> Result<(), Fail> {
    let mut memory = patterned(rt.alloc(), 51_200)?;
    let mut expected = patterned(rt.alloc(), 51_200)?;
    if segments > 0 {
        lay_out(expected.as_mut_slice(), segments, 100);
    }
    let mut pack = Pack::over(Image::over(memory.as_mut_slice(), bad));
    play(rt, &mut pack, given, told)?;
    assert_eq!(rt; pack.levels().depth(), 0, "{}", given.case);
    assert!(rt;
        pack.levels().below().bytes() == expected.as_slice(),
        "{}",
        given.case
    );
    Ok(())
}

#[test]
fn cut_at_every_byte(rt: HostRuntime) -> Result<(), Fail> {
    // INITIALIZE with 1, 2 and 3 segments.
    let fields = [1, 1, 0, 1, 1, 1, 0, 2, 1, 1, 0, 3];
    for cut in 0..13 {
        let given = Given {
            run: &fields[0..cut],
            work: 32_768,
            room: 67,
            case: cut,
        };
        let whole = cut / 4;
        let told = Told {
            lines: &ACCEPTED[0..20 * whole],
            end: if cut % 4 == 0 { 0 } else { 17 },
        };
        play_on_image(&rt, &[], given, told, whole as u8)?;
    }
    Ok(())
}

#[test]
fn small_reports(rt: HostRuntime) -> Result<(), Fail> {
    // INITIALIZE with 1 and 2 segments, and the first bytes of another field.
    let fields = [1, 1, 0, 1, 1, 1, 0, 2, 1, 1];
    // The bytes of the run and of the report, the end and the lines. A field without room for its line is not run, and one that
    // is cut short is told only where there is room for its line.
    let cases = [
        (8, 0, 18, 0),
        (8, 19, 18, 0),
        (8, 20, 18, 1),
        (8, 39, 18, 1),
        (8, 40, 0, 2),
        (0, 0, 0, 0),
        (2, 0, 18, 0),
        (2, 19, 18, 0),
        (2, 20, 17, 0),
        (10, 40, 18, 2),
        (10, 59, 18, 2),
        (10, 60, 17, 2),
    ];
    for (size, room, end, lines) in cases {
        assert!(rt; size <= 10 && lines <= 2);
        let given = Given {
            run: &fields[0..size],
            work: 32_768,
            room,
            case: size,
        };
        let told = Told {
            lines: &ACCEPTED[0..20 * lines],
            end,
        };
        play_on_image(&rt, &[], given, told, lines as u8)?;
    }
    Ok(())
}

// A run of `size` bytes: INITIALIZE with 1 segment, three fields of the unknown tag 200 with bodies of 65,535 bytes, and one whose
// body is the rest.
fn long_run(heap: Global, size: usize, rest: u16) -> Result<Vec<u8>, AllocError> {
    let mut run = vec![in heap; 0u8; size]?;
    let [low, high] = rest.to_le_bytes();
    put(run.as_mut_slice(), 0, &[1, 1, 0, 1]);
    put(run.as_mut_slice(), 4, &[200, 255, 255]);
    put(run.as_mut_slice(), 65_542, &[200, 255, 255]);
    put(run.as_mut_slice(), 131_080, &[200, 255, 255]);
    put(run.as_mut_slice(), 196_618, &[200, low, high]);
    Ok(run)
}

#[test]
fn long_runs_and_small_workspaces(rt: HostRuntime) -> Result<(), Fail> {
    let heap = rt.alloc();
    let longest = long_run(heap, 262_144, 65_523)?;
    let too_long = long_run(heap, 262_145, 65_524)?;
    let all =
        b"00001 01 00 0000000\n00002 00 16 0000000\n00003 00 16 0000000\n00004 00 16 0000000\n00005 00 16 0000000\n";
    // The run, the bytes of the workspace, the lines, the end, and the segments of the volume that is left.
    let cases: [(&[u8], usize, &[u8], u8, u8); 10] = [
        (longest.as_slice(), 32_768, all, 0, 1),
        (longest.as_slice(), 32_767, b"", 18, 0),
        (too_long.as_slice(), 32_768, b"", 18, 0),
        (too_long.as_slice(), 32_767, b"", 18, 0),
        (too_long.as_slice(), 0, b"", 18, 0),
        (b"", 32_768, b"", 0, 0),
        (b"", 32_767, b"", 18, 0),
        (b"\x01\x01\x00\x01", 32_768, b"00001 01 00 0000000\n", 0, 1),
        (b"\x01\x01\x00\x01", 32_767, b"", 18, 0),
        (b"\x01\x01", 0, b"", 18, 0),
    ];
    for (run, work, lines, end, segments) in cases {
        let given = Given {
            run,
            work,
            room: 107,
            case: run.len(),
        };
        play_on_image(&rt, &[], given, Told { lines, end }, segments)?;
    }
    Ok(())
}

#[test]
fn unknown_tags(rt: HostRuntime) -> Result<(), Fail> {
    // The tags from 2 to 12 are those of fields that are not built yet.
    for tag in [0, 2, 3, 4, 5, 6, 7, 8, 9, 10, 11, 12, 13, 255] {
        // between two of INITIALIZE, which are run
        let given = Given {
            run: &[1, 1, 0, 1, tag, 2, 0, 1, 1, 1, 1, 0, 2],
            work: 32_768,
            room: 67,
            case: tag as usize,
        };
        let told = Told {
            lines: b"00001 01 00 0000000\n00002 00 16 0000000\n00003 01 00 0000000\n",
            end: 0,
        };
        play_on_image(&rt, &[], given, told, 2)?;
    }
    Ok(())
}

#[test]
fn refused_fields(rt: HostRuntime) -> Result<(), Fail> {
    let heap = rt.alloc();
    let mut longest = vec![in heap; 1u8; 65_538]?;
    put(longest.as_mut_slice(), 0, &[1, 255, 255]);
    // INITIALIZE with a bad block, and its line: bodies of 0, 2 and 65,535 bytes, segments out of range, and bad blocks.
    let cases: [(&[u8], u32, &[u8]); 9] = [
        (b"\x01\x00\x00", 99, b"00001 01 16 0000000\n"),
        (b"\x01\x02\x00\x01\x00", 99, b"00001 01 16 0000000\n"),
        (longest.as_slice(), 99, b"00001 01 16 0000000\n"),
        (b"\x01\x01\x00\x00", 99, b"00001 01 12 0000000\n"),
        (b"\x01\x01\x00\x20", 99, b"00001 01 12 0000000\n"),
        (b"\x01\x01\x00\x02", 1, b"00001 01 02 0000001\n"),
        (b"\x01\x01\x00\x02", 6, b"00001 01 02 0000006\n"),
        (b"\x01\x01\x00\x02", 9, b"00001 01 02 0000009\n"),
        (b"\x01\x01\x00\x1F", 67, b"00001 01 02 0000067\n"),
    ];
    for (run, bad, lines) in cases {
        let given = Given {
            run,
            work: 32_768,
            room: 27,
            case: bad as usize,
        };
        play_on_image(&rt, &[bad], given, Told { lines, end: 0 }, 0)?;
    }
    Ok(())
}

// Adds the line of field n, of an unknown tag. Its digits are worked out here, apart from the program's.
fn push_line(lines: &mut Vec<u8>, n: u32) -> Result<(), AllocError> {
    for unit in [10_000, 1000, 100, 10, 1] {
        lines.push(b'0' + (n / unit % 10) as u8)?;
    }
    lines.extend_from_slice(b" 00 16 0000000\n")
}

#[test]
fn as_many_fields_as_fit(rt: HostRuntime) -> Result<(), Fail> {
    let heap = rt.alloc();
    // Zeros are fields of the unknown tag 0 without bodies, 87,381 of them and a byte of one more.
    let zeros = vec![in heap; 0u8; 262_144]?;
    let mut lines = Vec::new(heap);
    for n in 1..87_382 {
        push_line(&mut lines, n)?;
    }
    assert_eq!(rt; lines.len(), 1_747_620);
    assert!(rt; lines.as_slice().ends_with(b"\n87381 00 16 0000000\n"));
    // The cut field is told as 17 where there is room for a line more.
    for (room, end) in [(1_747_639, 18), (1_747_640, 17)] {
        let given = Given {
            run: zeros.as_slice(),
            work: 32_768,
            room,
            case: room,
        };
        let told = Told {
            lines: lines.as_slice(),
            end,
        };
        play_on_image(&rt, &[], given, told, 0)?;
    }
    Ok(())
}
