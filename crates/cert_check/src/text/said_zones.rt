//! Zones that were read, so that words which say one of them again aren't read once more.

ghost use Rattle.std.specs.Prelude.{IfOk, IfSome};
ghost use Rattle.cert_check.specs.text.SaidZones.{IsSaidZone, IsSaidZone-prop};

use std::alloc::AllocError;
use zones::KeptZone;

/// A zone, and the words that say it.
#[derive(Drop)]
struct SaidZone<'a> {
    words: &'a [u8],
    zone: KeptZone,
    ghost is_said: { IsSaidZone words.now zone } by { IsSaidZone-prop words.now zone },
}

/// A copy of the zone, where there is one and these words say it too.
fn copy_said(said: &Option<SaidZone<'_>>, words: &[u8]) -> Result<Option<KeptZone>, AllocError>
    ensures said { IfOk result (λ zone. IfSome zone (IsSaidZone words.now)) }
{
    let Some(said) = said else {
        return Ok(None);
    };
    if said.words != words {
        return Ok(None);
    }
    Ok(Some(said.zone.try_copy()?))
}

/// The last two zones that were read, other than by a copy. What undo may find is most often the zone of the state before, and then it
/// is the one before the last.
#[derive(Drop)]
pub(crate) struct SaidZones<'a> {
    last: Option<SaidZone<'a>>,
    before: Option<SaidZone<'a>>,
}

impl<'a> SaidZones<'a> {
    /// No zone yet. It takes no memory.
    pub(crate) fn none() -> Self {
        SaidZones {
            last: None,
            before: None,
        }
    }

    /// A copy of the zone that these words say, if it is one of the two.
    pub(crate) fn zone_of(&self, words: &[u8]) -> Result<Option<KeptZone>, AllocError>
        ensures said { IfOk result (λ zone. IfSome zone (IsSaidZone words.now)) }
    {
        if let Some(zone) = copy_said(&self.last, words)? {
            return Ok(Some(zone));
        }
        copy_said(&self.before, words)
    }

    /// Keeps a copy of a zone as the last one. The one before the last is given up.
    pub(crate) fn keep(&mut self, words: &'a [u8], zone: &KeptZone) -> Result<(), AllocError>
        requires said { IsSaidZone words.now zone.now }
    {
        let zone = zone.try_copy()?;
        self.before = self.last.replace(SaidZone { words, zone });
        Ok(())
    }
}
