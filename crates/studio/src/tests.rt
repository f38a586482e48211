// The call on small runs.
ghost use Rattle.std.specs.Prelude.{◌^◌, ◌<◌};

use crate::velvetopal_plan;

// 2^63: an answer from here on is a refusal.
const REFUSED: u64 = 0x8000_0000_0000_0000;

fn counted(wipes: u64, words: u64) -> u64
    requires { (wipes < 2 ^ 31) × (words < 2 ^ 32) }
{
    wipes * 0x1_0000_0000 + words
}

#[test]
fn counts_wipes_and_words(rt: HostRuntime) {
    let blank = [255; 8];
    let first = [0x12, 0x34, 255, 255, 255, 255, 255, 255];
    let rises = [0x12, 0x35, 255, 255, 255, 255, 255, 255];
    assert_eq!(rt; velvetopal_plan(&blank, &first, 4), counted(0, 1));
    assert_eq!(rt; velvetopal_plan(&first, &rises, 4), counted(1, 1));
    assert_eq!(rt; velvetopal_plan(&rises, &rises, 4), counted(0, 0));
    assert_eq!(rt; velvetopal_plan(&[0; 8], &blank, 2), counted(4, 0));
    assert_eq!(rt; velvetopal_plan(&blank, &[0; 8], 8), counted(0, 4));
    assert_eq!(rt; velvetopal_plan(&[], &[], 131_072), counted(0, 0));
}

#[test]
fn tests_the_size_and_then_the_runs(rt: HostRuntime) {
    let run = [0; 8];
    assert_eq!(rt; velvetopal_plan(&run, &[0; 7], 3), REFUSED + 7);
    assert_eq!(rt; velvetopal_plan(&run, &run, 0), REFUSED + 7);
    assert_eq!(rt; velvetopal_plan(&run, &run, 262_144), REFUSED + 7);
    assert_eq!(rt; velvetopal_plan(&run, &[0; 7], 4), REFUSED + 1);
    assert_eq!(rt; velvetopal_plan(&[0; 6], &[0; 6], 4), REFUSED + 1);
    assert_eq!(rt; velvetopal_plan(&[255; 320], &[0; 320], 2), counted(0, 160));
    assert_eq!(rt; velvetopal_plan(&[255; 322], &[0; 322], 2), REFUSED + 1);
}
