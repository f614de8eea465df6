//! The reports of faults (XCU ed, "Consequences of Errors").
ghost use Rattle.std.specs.Prelude.{◌≡◌, IfOk};
ghost use Rattle.ed_syntax.specs.meaning.Progress.{report};
ghost use Rattle.ed_base.specs.declared.fault.Fault.TheVariants.{Memory};
ghost use Rattle.ed_session.specs.Insides.{AreReady, EndsBy, Reported};

use crate::phase::Phase;
use ed_base::{Bytes, Fault, Pieces};
use std::alloc::{AllocError, Global};
use std::mem;

/// The reports that memory ran out, for which room is made beforehand. Only one report is ever handed out.
#[derive(Drop)]
pub(crate) struct Reports {
    alloc: Global,
    // Out of help mode all reports are this one.
    brief: Bytes,
    // In help mode.
    full: Bytes,
}

/// What is written of a fault, in help mode also its text.
fn report_of(alloc: Global, help: bool, fault: Fault) -> Result<Bytes, AllocError>
    ensures value { IfOk result (λ written. written ≡ report help fault) }
{
    let mut written = Bytes::from_slice(alloc, b"?\n")?;
    if help {
        written.extend_from_slice(fault.text().as_bytes())?;
        written.push(b'\n')?;
    }
    Ok(written)
}

impl Reports {
    pub(crate) fn new(alloc: Global) -> Result<Self, AllocError>
        ensures ready { IfOk result (λ r. AreReady r.brief r.full) }
    {
        Ok(Reports {
            alloc,
            brief: report_of(alloc, false, Fault::Memory)?,
            full: report_of(alloc, true, Fault::Memory)?,
        })
    }

    /// The report that memory ran out. It takes none.
    fn of_memory(&mut self, help: bool) -> Pieces
        requires ready { AreReady self.old.brief self.old.full }
        ensures value { result ≡ report help Memory }
    {
        let none = Bytes::new(self.alloc);
        let written = if help {
            mem::replace(&mut self.full, none)
        } else {
            mem::replace(&mut self.brief, none)
        };
        Pieces::from_bytes(self.alloc, written)
    }

    /// A fault and its report; where there is no memory for it, those of `Fault::Memory`.
    fn reported(&mut self, help: bool, fault: Fault) -> (Fault, Pieces)
        requires ready { AreReady self.old.brief self.old.full }
        ensures value { Reported help fault result.0 result.1 }
    {
        match fault {
            Fault::Memory => (Fault::Memory, self.of_memory(help)),
            _ if !help => (fault, self.of_memory(false)),
            _ => match report_of(self.alloc, true, fault) {
                Ok(written) => (fault, Pieces::from_bytes(self.alloc, written)),
                Err(_) => (Fault::Memory, self.of_memory(true)),
            },
        }
    }

    /// Ends a run by a fault, and gives its report; where there is no memory for that, both are those of `Fault::Memory`.
    pub(crate) fn end(&mut self, phase: &mut Phase, help: bool, fault: Fault) -> Pieces
        requires ready { AreReady self.old.brief self.old.full }
        ensures ended { EndsBy help fault phase.new result }
    {
        let (fault, report) = self.reported(help, fault);
        *phase = Phase::Over(Err(fault));
        report
    }
}
