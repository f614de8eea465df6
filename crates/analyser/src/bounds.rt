//! How many lines a certificate tells of.

ghost use Rattle.std.specs.Prelude.{◌≡◌};
ghost use Rattle.zones.specs.Name as name;
ghost use Rattle.zones.specs.Name.{last_line};
ghost use Rattle.zones.specs.Known.{least, greatest};
ghost use Rattle.analyser.specs.Analysis.{low_of, high_of};

use ed_rules::LineBounds;
use zones::{Name, Zone};

/// The fewest lines that are known.
pub(crate) fn low_of(zone: &Zone) -> u64
    ensures value { result ≡ low_of (least zone.now last_line name.zero) }
{
    match zone.least(Name::LAST_LINE, Name::ZERO) {
        Some(least) => match u64::try_from(least) {
            Ok(least) => least.min(LineBounds::MOST),
            Err(_) => 0,
        },
        None => 0,
    }
}

/// The most lines that are known; with none there is no limit.
pub(crate) fn high_of(zone: &Zone) -> Option<u64>
    ensures value { result ≡ high_of (greatest zone.now last_line name.zero) }
{
    match zone.bound(Name::LAST_LINE, Name::ZERO) {
        Some(most) => match u64::try_from(most) {
            Ok(most) if most > LineBounds::MOST => None,
            Ok(most) => Some(most),
            Err(_) => Some(0),
        },
        None => None,
    }
}
