// Landing: the offer at the sending end, in yuan, becomes the offer that is held against a bid, in fen.
ghost use Rattle.std.specs.Prelude.{◌≡◌, ◌≤◌, nat_le};
ghost use Rattle.market.specs.Maxima.{max_price};
ghost use Rattle.market.specs.Landing.{deducted, landed};

use super::figures::{BidPrice, Charges, Offer};

// An offer as it lands with a buyer, in fen per MWh. Only landing makes one, and only it is held against a bid.
#[derive(Clone, Copy, PartialEq, Eq, PartialOrd, Ord, Debug)]
pub struct LandedOffer {
    fen: u32,
    ghost ok: { fen ≤ max_price },
}

impl Charges {
    // What is deducted between the landed offer and what the unit receives, in fen.
    pub fn deducted(self) -> u32
        ensures { result ≡ deducted self }
    {
        u32::from(self.grid.fen) + u32::from(self.branch.fen)
    }
}

impl Offer {
    // The landed offer: 100 × offer + what is deducted. No other function makes one.
    pub fn land(self, charges: Charges) -> LandedOffer
        ensures { result.fen ≡ landed self.yuan charges }
    {
        LandedOffer {
            fen: 100 * u32::from(self.yuan) + charges.deducted(),
        }
    }
}

impl LandedOffer {
    // The landed offer in fen per MWh.
    pub fn fen(self) -> u32
        ensures { result ≡ self.fen }
    {
        self.fen
    }

    // Whether it lands within a bid: at or below it.
    pub fn within(self, bid: BidPrice) -> bool
        ensures { result ≡ nat_le self.fen bid.fen }
    {
        bid.fen >= self.fen
    }
}
