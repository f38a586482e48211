// Patterns longer and shorter than what is asked of them.
use crate::repeated;
use std::test::Fail;

#[test]
fn a_repeated_pattern_takes_the_room_of_what_is_asked(rt: HostRuntime) -> Result<(), Fail> {
    let heap = rt.alloc();
    for length in [1, 2, 3, 5, 4096] {
        let pattern = vec![in heap; 7; length]?;
        for count in [0, 1, 2, 7, 4095, 4096, 4097, 5000] {
            let bytes = repeated(heap, &pattern, count)?;
            assert_eq!(rt; bytes.len(), count);
            assert_eq!(rt; bytes.capacity(), count);
        }
    }
    Ok(())
}

#[test]
fn a_pattern_is_cut_off_and_an_empty_one_gives_nothing(rt: HostRuntime) -> Result<(), Fail> {
    let heap = rt.alloc();
    // pattern, how many bytes are asked, and what they are
    let cases: [(&[u8], usize, &[u8]); 4] = [
        (&[1, 2, 3], 7, &[1, 2, 3, 1, 2, 3, 1]),
        (&[1, 2, 3], 2, &[1, 2]),
        (&[9], 3, &[9, 9, 9]),
        (&[], 3, &[]),
    ];
    for (pattern, count, wanted) in cases {
        let bytes = repeated(heap, pattern, count)?;
        assert_eq!(rt; bytes.as_slice(), wanted);
    }
    Ok(())
}
