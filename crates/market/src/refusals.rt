// Why a call is declined: the refusals of the sheet, the market and the screen.
// Each answers a number, the layer that declines (1 sheet, 2 market, 3 screen) and the name of what is at fault.
ghost use Rattle.std.specs.Prelude.{◌≡◌};
ghost use Rattle.market.specs.Refusals.{sheet_refusal, market_refusal, screen_refusal};
ghost use Rattle.market.specs.declared.refusals.MarketRefusal.TheVariants as market;
ghost use Rattle.market.specs.declared.refusals.ScreenRefusal.TheVariants as screen;

// What a declined call answers. Number and layer stay numbers, since they are what a line prints; the enums below are the kinds.
#[derive(Clone, Copy, PartialEq, Eq, Debug)]
pub struct Refusal {
    pub number: u8,
    pub layer: u8,
    pub name: u32,
}

// A number that nothing has: no unit, grid, class or place.
#[derive(Clone, Copy, PartialEq, Eq, Debug)]
pub struct OutOfRange {
    pub name: u32,
}

// A sheet or a strip of tariffs that cannot be read.
#[derive(Clone, Copy, PartialEq, Eq, Debug)]
pub enum SheetRefusal {
    // Fewer bytes than a strip or a header has, or than the sheet's stated length.
    TooShort,
    // Counts or length against the layout.
    BadLayout,
    // A sheet for another point than the day's.
    OtherPoint,
}

impl From<SheetRefusal> for Refusal {
    ghost from_gives = { λ e r. r ≡ sheet_refusal e };

    fn from(refusal: SheetRefusal) -> Refusal {
        let number = match refusal {
            SheetRefusal::TooShort => 11,
            SheetRefusal::BadLayout => 12,
            SheetRefusal::OtherPoint => 14,
        };
        Refusal {
            number,
            layer: 1,
            name: 0,
        }
    }
}

// A call that the market declines. `name` is the unit or grid that the call names, as it was handed over.
#[derive(Clone, Copy, PartialEq, Eq, Debug)]
pub enum MarketRefusal {
    // 96 points are posted and the day still runs.
    DayFull { name: u32 },
    // The point is cleared.
    Cleared { name: u32 },
    // The point is not cleared.
    NotCleared,
    // A unit, grid, class or place that there is not; `name` is that number.
    OutOfRange { name: u32 },
    // A figure above its maximum, or a tariff other than 0 for the branch's own dispatch.
    AboveMaximum { name: u32 },
    // Derates, reserve and plan exceed the nameplate.
    NoHeadroom { unit: u32 },
    // A band's offer below the band before, or an offer for a band that the unit has not.
    OffersFall { unit: u32 },
    // A need above 0 for the branch's own dispatch, or a grid that would both buy and sell.
    BothSides { name: u32 },
    // A tariff while a unit is offered or a point is posted.
    TariffsFixed { grid: u32 },
    // A withdrawal of a unit that is not offered.
    NotOffered { unit: u32 },
    // A buffer too short for a listing.
    ShortBuffer,
    // As many entries as a day can count.
    EntriesFull { name: u32 },
}

impl From<MarketRefusal> for Refusal {
    ghost from_gives = { λ e r. r ≡ market_refusal e };

    fn from(refusal: MarketRefusal) -> Refusal {
        let (number, name) = match refusal {
            MarketRefusal::DayFull { name } => (1, name),
            MarketRefusal::Cleared { name } => (2, name),
            MarketRefusal::NotCleared => (3, 0),
            MarketRefusal::OutOfRange { name } => (4, name),
            MarketRefusal::AboveMaximum { name } => (5, name),
            MarketRefusal::NoHeadroom { unit } => (6, unit),
            MarketRefusal::OffersFall { unit } => (7, unit),
            MarketRefusal::BothSides { name } => (8, name),
            MarketRefusal::TariffsFixed { grid } => (9, grid),
            MarketRefusal::NotOffered { unit } => (10, unit),
            MarketRefusal::ShortBuffer => (13, 0),
            MarketRefusal::EntriesFull { name } => (17, name),
        };
        Refusal {
            number,
            layer: 2,
            name,
        }
    }
}

// A call that the screen declines.
#[derive(Clone, Copy, PartialEq, Eq, Debug)]
pub enum ScreenRefusal {
    // A unit, grid, corridor or place that there is not; `name` is that number.
    OutOfRange { name: u32 },
    // A limit or cap above its maximum; `name` is the grid, corridor or place, 0 for the ceiling.
    AboveMaximum { name: u32 },
    // A quantity above the room at the place.
    AboveRoom { place: u32 },
    // A parent that is not of lower number.
    ParentNotLower { corridor: u32 },
}

impl From<ScreenRefusal> for Refusal {
    ghost from_gives = { λ e r. r ≡ screen_refusal e };

    fn from(refusal: ScreenRefusal) -> Refusal {
        let (number, name) = match refusal {
            ScreenRefusal::OutOfRange { name } => (4, name),
            ScreenRefusal::AboveMaximum { name } => (5, name),
            ScreenRefusal::AboveRoom { place } => (15, place),
            ScreenRefusal::ParentNotLower { corridor } => (16, corridor),
        };
        Refusal {
            number,
            layer: 3,
            name,
        }
    }
}

impl From<OutOfRange> for MarketRefusal {
    ghost from_gives = { λ e r. r ≡ market.OutOfRange e.name };

    fn from(out: OutOfRange) -> MarketRefusal {
        MarketRefusal::OutOfRange { name: out.name }
    }
}

impl From<OutOfRange> for ScreenRefusal {
    ghost from_gives = { λ e r. r ≡ screen.OutOfRange e.name };

    fn from(out: OutOfRange) -> ScreenRefusal {
        ScreenRefusal::OutOfRange { name: out.name }
    }
}
