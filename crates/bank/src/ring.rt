//! The ring bank: ten lanes of 16 slots. Where in its lane a word lies is the ring's own affair.
ghost use Rattle.std.specs.Prelude.{◌≡◌, length};

mod lane;

use crate::bank::{Bank, Fault};
use lane::Lane;

/// Ten queues of depth 16.
// It has no `Model`: the law of banks holds of these lanes, and not of every list of ten queues, so a model's value would
// have to carry the law's proof beside the list.
#[derive(Drop)]
pub struct Ring {
    lanes: [Lane; 10],
    ghost ten: { length lanes ≡ 10 },
}

impl Ring {
    ghost use Rattle.std.specs.Prelude.{◌≡◌, replicate};
    ghost use Rattle.bank.specs.Rings.{ring_queues, fresh};

    /// Ten empty queues of depth 16.
    pub fn new() -> Ring
        ensures { ring_queues result ≡ replicate 10 fresh }
    {
        Ring {
            lanes: [Lane::new(); 10],
        }
    }
}

// Where a lane is changed, its place is tested and then indexed: after a `get_mut` a proof knows no lane any more. It is
// indexed through a `&mut` of the array, since at `self.lanes[at].put(word)` the check makes a plan that it cannot build, which
// it calls a bug of its own.
impl Bank for Ring {
    ghost use Rattle.bank.specs.Rings.{ring_queues};
    ghost use Rattle.bank.specs.RingsLemmas.{ring_sound};

    ghost queues = { ring_queues };

    ghost sound = { λ ring. ring_sound ring };

    fn depth(&self, q: u8) -> u16 {
        self.lanes.get(usize::from(q)).map_or(0, |_| Lane::DEPTH)
    }

    fn number(&self, q: u8) -> u16 {
        self.lanes.get(usize::from(q)).map_or(0, Lane::number)
    }

    #[tactic(auto, using(crate::proofs::Lanes::same_lane, crate::proofs::Lanes::grown_lane))]
    fn put(&mut self, q: u8, word: u32) -> Result<(), Fault> {
        let at = usize::from(q);
        if at >= self.lanes.len() {
            return Err(Fault::Full);
        }
        let lanes = &mut self.lanes;
        lanes[at].put(word)?;
        Ok(())
    }

    #[tactic(auto, using(crate::proofs::Lanes::same_lane, crate::proofs::Lanes::shrunk_lane))]
    fn take(&mut self, q: u8) -> Result<u32, Fault> {
        let at = usize::from(q);
        if at >= self.lanes.len() {
            return Err(Fault::Empty);
        }
        let lanes = &mut self.lanes;
        lanes[at].take().ok_or(Fault::Empty)
    }

    #[tactic(auto, using(crate::proofs::Lanes::wiped_lane))]
    fn wipe(&mut self, q: u8) {
        let at = usize::from(q);
        if at < self.lanes.len() {
            let lanes = &mut self.lanes;
            lanes[at].wipe();
        }
    }
}
