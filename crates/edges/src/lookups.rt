// LOOKUP and READ: each reads every directory block once, and nothing besides.
use crate::counting::Counting;
use device::image::Image;
use level::lookup::{lookup, read_file};
use std::test::Fail;
use volume::initial::initialize;

#[test]
fn lookup_reads_the_directory_once(rt: HostRuntime) -> Result<(), Fail> {
    let heap = rt.alloc();
    let mut memory = vec![in heap; 0u8; 51_200]?;
    let mut work = vec![in heap; 0u8; 32_768]?;
    let mut device = Counting::over(Image::over(memory.as_mut_slice(), &[]));
    assert!(rt; initialize(&mut device, 3).is_ok());
    device.reset();
    assert!(rt; lookup(&device, work.as_mut_slice(), None, b"NONE     ").is_err());
    assert_eq!(rt; device.reads(), 6);
    assert_eq!(rt; device.writes(), 0);
    Ok(())
}

#[test]
fn an_unlawful_name_reads_nothing(rt: HostRuntime) -> Result<(), Fail> {
    let heap = rt.alloc();
    let mut memory = vec![in heap; 0u8; 51_200]?;
    let mut work = vec![in heap; 0u8; 32_768]?;
    let mut block = [7u8; 512];
    let device = Counting::over(Image::over(memory.as_mut_slice(), &[]));
    assert!(rt;
        read_file(
            &device,
            work.as_mut_slice(),
            None,
            b"none     ",
            0,
            &mut block,
        )
        .is_err()
    );
    assert_eq!(rt; device.reads(), 0);
    assert_eq!(rt; block[0], 7);
    Ok(())
}
