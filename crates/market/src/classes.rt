// The classes of units, in the order in which equal offers are served.
ghost use Rattle.std.specs.Prelude.{◌≡◌, Some, None, MatchResult};
ghost use Rattle.market.specs.Classes.{class_number, class_at};

use super::refusals::OutOfRange;

#[derive(Clone, Copy, PartialEq, Eq, PartialOrd, Ord, Debug)]
pub enum Class {
    Hydro,
    Storage,
    Gas,
    LargeUltraLowCoal,
    SmallUltraLowCoal,
    LargeCoal,
    SmallCoal,
}

// Out of range is every number that no class has.
impl TryFrom<u32> for Class {
    type Error = OutOfRange;

    ghost try_from_gives = { λ n r. MatchResult r (λ class. Some class ≡ class_at n) (λ e. (class_at n ≡ None) × (e.name ≡ n)) };

    fn try_from(number: u32) -> Result<Class, OutOfRange> {
        match number {
            1 => Ok(Class::Hydro),
            2 => Ok(Class::Storage),
            3 => Ok(Class::Gas),
            4 => Ok(Class::LargeUltraLowCoal),
            5 => Ok(Class::SmallUltraLowCoal),
            6 => Ok(Class::LargeCoal),
            7 => Ok(Class::SmallCoal),
            _ => Err(OutOfRange { name: number }),
        }
    }
}

// The number of the class, 1 to 7.
impl From<Class> for u8 {
    ghost from_gives = { λ class n. n ≡ class_number class };

    fn from(class: Class) -> u8 {
        match class {
            Class::Hydro => 1,
            Class::Storage => 2,
            Class::Gas => 3,
            Class::LargeUltraLowCoal => 4,
            Class::SmallUltraLowCoal => 5,
            Class::LargeCoal => 6,
            Class::SmallCoal => 7,
        }
    }
}
