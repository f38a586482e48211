// Raw bus cycles of a card.
ghost use Rattle.std.specs.Prelude.{◌≡◌};
ghost use Rattle.cards.specs.Raw.{RawRead, RawWritten, found, written};
ghost use Rattle.cards.specs.Meant.{of_card};

use crate::access::Width;
use crate::card::Card;
use crate::wiring::Wiring;
use board::Reach;

impl<W: Wiring> Card<W> {
    // The word that an address finds: the even place at or below the one that it leads to.
    fn find(&self, address: u32) -> u32
        ensures { result ≡ found W.leads (of_card W.switches self.now).slot address }
    {
        let place = W::lead(self.board.capacity(), address);
        place - place % 2
    }

    // Sends a word to the devices that a cycle reaches at a place, unless the protect pin is on.
    pub(crate) fn send(&mut self, place: u32, reach: Reach, word: u16)
        ensures { of_card W.switches self.new ≡ written (of_card W.switches self.old) place reach word }
    {
        if self.wiring.is_pin_on() {
            return;
        }
        let supply = self.wiring.is_supply_good();
        self.board.write_cycle(place, reach, word, supply);
    }

    // A read cycle: answers what the 16 data lines show.
    pub fn raw_read(&mut self, width: Width, address: u32) -> u16
        ensures { RawRead W.leads W.picks (of_card W.switches self.old) width address result (of_card W.switches self.new) }
    {
        let place = self.find(address);
        self.board
            .read_cycle(place, width.reach(W::picks_odd(address)))
    }

    // A write cycle, with a word on the 16 data lines.
    pub fn raw_write(&mut self, width: Width, address: u32, word: u16)
        ensures { RawWritten W.leads W.picks (of_card W.switches self.old) width address word (of_card W.switches self.new) }
    {
        let place = self.find(address);
        self.send(place, width.reach(W::picks_odd(address)), word);
    }
}
