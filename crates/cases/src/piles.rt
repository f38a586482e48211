// Windows and fences over memory cards of blocks of four bytes.
ghost use Rattle.std.specs.Prelude.{◌≡◌};
ghost use Rattle.memory.specs.Card.{card_meaning};
ghost use Rattle.memory.specs.Switches.{with_locks};

use crate::answers::{counts, failed};
use layers::{Fence, Layer, Switch, Through, Window};
use medium::{Fault, Geometry, Lanes, Medium};
use memory::MemoryCard;
use std::alloc::Global;
use std::test::Fail;
use writer::put;

// A card of so many blocks, all bytes FFH, 100 lives a lane on each block.
fn card(heap: Global, blocks: u32) -> Result<MemoryCard, Fail> {
    let geometry = Geometry::new(4, blocks, 1)?;
    let bytes = vec![in heap; 255u8; geometry.capacity() as usize]?;
    let mut card = MemoryCard::new(geometry, bytes);
    for block in 0..blocks {
        card.set_lives(block, Lanes::Both, 100)?;
    }
    Ok(card)
}

// The lock switch of a memory card.
#[derive(Clone, Copy)]
struct Lock {
    on: bool,
}

impl Switch<MemoryCard> for Lock {
    ghost turns = { λ s m n t. (card_meaning n ≡ with_locks (card_meaning m) s.on) × (t ≡ s) };

    fn turn(&mut self, medium: &mut MemoryCard) {
        medium.set_locked(self.on);
    }
}

// The switch that locks a card, as it is turned two layers up.
fn lock_below_two() -> Through<Through<Lock>> {
    let switch = Through {
        switch: Lock { on: true },
    };
    Through { switch }
}

const EMPTY: [u8; 4] = [255; 4];

#[test]
fn a_window_counts_places_from_its_start(rt: HostRuntime) -> Result<(), Fail> {
    let mut below = card(rt.alloc(), 2)?;
    below.set_lives(1, Lanes::Both, 0)?;
    let lanes = Lanes::Both;
    assert_eq!(rt;
        below.write_word(4, 0),
        Err(Fault::Worn { place: 4, lanes })
    );
    let mut window = Window::new(below, 1, 1);
    assert_eq!(rt;
        window.write_word(0, 0),
        Err(Fault::Worn { place: 0, lanes })
    );
    assert_eq!(rt; window.wipe(0), Err(Fault::Worn { place: 0, lanes }));
    assert_eq!(rt; window.write_word(1, 0), Err(Fault::OddPlace { place: 1 }));
    assert_eq!(rt; window.write_word(4, 0), Err(Fault::OffCard { place: 4 }));
    assert_eq!(rt; window.wipe(1), Err(Fault::OffCard { place: 4 }));
    let mut below = window.into_below();
    below.set_supply(false);
    let mut window = Window::new(below, 1, 1);
    assert_eq!(rt; window.write_word(2, 0), Err(Fault::LowSupply { place: 2 }));
    assert_eq!(rt; window.wipe(0), Err(Fault::LowSupply { place: 0 }));
    Ok(())
}

#[test]
fn a_window_that_does_not_fit_has_no_blocks(rt: HostRuntime) -> Result<(), Fail> {
    let most = u32::MAX;
    let runs = [(1, 2), (3, 0), (0, most), (most, 0), (most, most)];
    for (first, count) in runs {
        let mut window = Window::new(card(rt.alloc(), 2)?, first, count);
        assert_eq!(rt; window.size().blocks, 0);
        assert_eq!(rt; window.read(0, &mut []), Ok(()));
        assert_eq!(rt; window.read(0, &mut [0]), Err(Fault::OffCard { place: 0 }));
        assert_eq!(rt; window.write_word(0, 0), Err(Fault::OffCard { place: 0 }));
        assert_eq!(rt; window.wipe(0), Err(Fault::OffCard { place: 0 }));
    }
    Ok(())
}

#[test]
fn the_largest_numbers_are_refused(rt: HostRuntime) -> Result<(), Fail> {
    let most = u32::MAX;
    let last = Fault::OffCard { place: most as u64 };
    let block = Fault::OffCard {
        place: 4 * most as u64,
    };
    let mut window = Window::new(card(rt.alloc(), 2)?, 1, 1);
    assert_eq!(rt; window.read(most, &mut [0]), Err(last));
    assert_eq!(rt; window.write_word(most, 0), Err(last));
    assert_eq!(rt; window.wipe(most), Err(block));
    let mut fence = Fence::new(window);
    assert_eq!(rt; fence.mark(most, true), Err(block));
    assert_eq!(rt; fence.write_word(most, 0), Err(last));
    assert_eq!(rt; fence.wipe(most), Err(block));
    Ok(())
}

#[test]
fn a_window_of_a_window(rt: HostRuntime) -> Result<(), Fail> {
    let mut window = Window::new(Window::new(card(rt.alloc(), 4)?, 1, 3), 1, 2);
    assert_eq!(rt; window.size().blocks, 2);
    window.write_word(4, 0x1234)?;
    let mut seen = EMPTY;
    window.read(3, &mut seen)?;
    assert_eq!(rt; seen, [255, 0x34, 0x12, 255]);
    let card = window.into_below().into_below();
    let lives = card.lives(3)?;
    assert_eq!(rt; (lives.even, lives.odd), (99, 99));
    let lives = card.lives(1)?;
    assert_eq!(rt; (lives.even, lives.odd), (100, 100));
    let mut window = Window::new(Window::new(card, 1, 2), 1, 2);
    assert_eq!(rt; window.size().blocks, 0);
    assert_eq!(rt; window.wipe(0), Err(Fault::OffCard { place: 0 }));
    Ok(())
}

#[test]
fn a_mark_locks_its_block_after_the_tests_of_the_place(rt: HostRuntime) -> Result<(), Fail> {
    let mut below = card(rt.alloc(), 2)?;
    below.set_supply(false);
    let mut fence = Fence::new(below);
    fence.mark(1, true)?;
    assert_eq!(rt; fence.mark(2, true), Err(Fault::OffCard { place: 8 }));
    assert_eq!(rt; fence.write_word(7, 0), Err(Fault::OffCard { place: 7 }));
    assert_eq!(rt; fence.write_word(5, 0), Err(Fault::OddPlace { place: 5 }));
    assert_eq!(rt; fence.write_word(6, 0), Err(Fault::Locked { place: 6 }));
    assert_eq!(rt; fence.wipe(2), Err(Fault::OffCard { place: 8 }));
    assert_eq!(rt; fence.wipe(1), Err(Fault::Locked { place: 4 }));
    assert_eq!(rt; fence.wipe(0), Err(Fault::LowSupply { place: 0 }));
    fence.mark(1, false)?;
    assert_eq!(rt; fence.write_word(6, 0), Err(Fault::LowSupply { place: 6 }));
    assert_eq!(rt; fence.wipe(1), Err(Fault::LowSupply { place: 4 }));
    Ok(())
}

#[test]
fn a_fence_over_a_window_over_a_fence(rt: HostRuntime) -> Result<(), Fail> {
    let mut under = Fence::new(card(rt.alloc(), 4)?);
    under.mark(2, true)?;
    let mut pile = Fence::new(Window::new(under, 1, 3));
    pile.mark(0, true)?;
    assert_eq!(rt; pile.wipe(0), Err(Fault::Locked { place: 0 }));
    assert_eq!(rt; pile.wipe(1), Err(Fault::Locked { place: 4 }));
    assert_eq!(rt; pile.wipe(3), Err(Fault::OffCard { place: 12 }));
    pile.write_word(10, 0)?;
    let mut lock = lock_below_two();
    pile.turn_below(&mut lock);
    assert_eq!(rt; pile.wipe(2), Err(Fault::Locked { place: 8 }));
    let mut card = pile.into_below().into_below().into_below();
    let mut seen = EMPTY;
    card.read(12, &mut seen)?;
    assert_eq!(rt; seen, [255, 255, 0, 0]);
    Ok(())
}

#[test]
fn a_window_over_a_fence_over_a_window(rt: HostRuntime) -> Result<(), Fail> {
    let mut middle = Fence::new(Window::new(card(rt.alloc(), 4)?, 1, 3));
    middle.mark(1, true)?;
    let mut pile = Window::new(middle, 1, 2);
    assert_eq!(rt; pile.write_word(2, 0), Err(Fault::Locked { place: 2 }));
    pile.write_word(4, 0)?;
    let mut lock = lock_below_two();
    pile.turn_below(&mut lock);
    assert_eq!(rt; pile.write_word(4, 0), Err(Fault::Locked { place: 4 }));
    lock.switch.switch.on = false;
    pile.turn_below(&mut lock);
    pile.wipe(1)?;
    assert_eq!(rt; pile.wipe(0), Err(Fault::Locked { place: 0 }));
    let lives = pile.into_below().into_below().into_below().lives(3)?;
    assert_eq!(rt; (lives.even, lives.odd), (98, 98));
    Ok(())
}

#[test]
fn a_put_through_a_pile(rt: HostRuntime) -> Result<(), Fail> {
    let mut pile = Fence::new(Window::new(card(rt.alloc(), 4)?, 1, 2));
    let mut buffer = EMPTY;
    assert_eq!(rt; put(&mut pile, 3, &[0x12, 0x34], &mut buffer), counts(0, 2));
    assert_eq!(rt; buffer, [0x34, 255, 255, 255]);
    pile.mark(1, true)?;
    let locked = Fault::Locked { place: 4 };
    assert_eq!(rt;
        put(&mut pile, 2, &[0, 0, 0], &mut buffer),
        failed(locked, 0, 1)
    );
    let bytes = pile.into_below().into_below().into_bytes();
    let wanted = [
        255, 255, 255, 255, 255, 255, 0, 0, 0x34, 255, 255, 255, 255, 255, 255, 255,
    ];
    assert_eq!(rt; bytes.as_slice(), wanted.as_slice());
    Ok(())
}
