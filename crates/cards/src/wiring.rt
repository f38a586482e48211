// How a card is wired to the bus.
ghost use Rattle.std.specs.Prelude.{◌≡◌, ℕ, ◌^◌, ◌<◌, ◌≤◌, Bool};
ghost use Rattle.cards.specs.Switches.{Switches};

// What differs from card to card. A wiring holds what the card's own switches move.
pub trait Wiring {
    // where its switches stand
    ghost switches: { Self → Switches };

    // on a card of so many bytes, the place that an address leads to; it may be past the last byte
    ghost leads: { ℕ → ℕ → ℕ };

    // whether a byte cycle at an address is the odd device's
    ghost picks: { ℕ → Bool };

    fn is_supply_good(&self) -> bool
        ensures { result ≡ (switches self.now).supply };

    fn is_pin_on(&self) -> bool
        ensures { result ≡ (switches self.now).pin };

    fn lead(capacity: u32, address: u32) -> u32
        ensures { result ≡ leads capacity address };

    fn picks_odd(address: u32) -> bool
        ensures { result ≡ picks address };

    // every place on a card is its own address
    ghost direct: { (n a : ℕ) → n ≤ 2 ^ 25 → a < n → leads n a ≡ a };
}
