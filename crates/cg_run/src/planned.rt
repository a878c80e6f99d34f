//! The items of a plan, each printed once its record has ended.
ghost use Rattle.std.specs.Prelude.{◌≡◌, []};
ghost use Rattle.cg_run.specs.Stream.{item_part};
ghost use Rattle.cg_run.specs.Streaming.{IsAppended};

use crate::stream_reader::{LastPart, Standing, StreamReader};
use cg_print::append_item;
use cg_snap::{Event, Limits, PlanDecoder, PlanWhat, Progress, StreamFault};
use cg_value::Profile;
use std::alloc::Global;

/// A reader of a plan, of which each item is printed.
#[derive(Drop)]
pub(crate) struct PlannedReader {
    decoder: PlanDecoder,
}

impl PlannedReader {
    ghost use Rattle.cg_run.specs.Planned.{HasPlanned};

    /// A reader that consumed nothing.
    pub(crate) fn new(alloc: Global, profile: Profile, limits: Limits) -> PlannedReader
        ensures { HasPlanned result (profile, limits) [] [] }
    {
        PlannedReader {
            decoder: PlanDecoder::new(alloc, profile, limits),
        }
    }
}

/// Appends the canonical record of an item, if one was found.
fn append_found(out: &mut Vec<u8>, what: PlanWhat) -> Event<()>
    ensures { IsAppended item_part what out.old.items out.new.items result }
{
    match what {
        Event::NeedMore => Event::NeedMore,
        Event::Given(item) => match append_item(out, &item) {
            Ok(()) => Event::Given(()),
            Err(_) => Event::OutOfMemory,
        },
        Event::Stopped(stop) => Event::Stopped(stop),
        Event::OutOfMemory => Event::OutOfMemory,
    }
}

impl StreamReader for PlannedReader {
    type Setup = (Profile, Limits);

    ghost use Rattle.cg_outcome.specs.Explain.{AreNext, ExplainsNext, IsInRecord};
    ghost use Rattle.cg_run.specs.Stood.{HasPlanStood, plan_stood, plan_within};
    ghost use Rattle.cg_run.specs.Planned.{HasPlanned, planned_closed, planned_counted, planned_offset, planned_passed};
    ghost use Rattle.cg_run.specs.Stream.{DoneOf, PartsOf};
    ghost use Rattle.cg_snap.specs.Plan.{ClosedPlan, Plan, PlanText};
    ghost use Rattle.cg_snap.specs.PlanStop.{IsPlanUnstopped, PlanStopOf};

    ghost whole = { λ form. DoneOf item_part (λ bytes items. PlanText (form.0) items bytes) };

    ghost closes = { λ form. PartsOf item_part (λ bytes items. ClosedPlan (form.0) bytes items) };

    ghost unstopped = { λ form. IsPlanUnstopped (form.0) (form.1) };

    ghost stops = { λ form. PlanStopOf (form.0) (form.1) };

    ghost limit = { λ form. form.1.max_stream };

    ghost wanted = { λ form. AreNext (Plan (form.0)) };

    ghost explained = { λ form. ExplainsNext (Plan (form.0)) IsInRecord };

    ghost explains = { λ form p what text h. h };

    ghost stood = { λ s form. HasPlanStood s.decoder (form.0) (form.1) };

    ghost stands = { λ s form p parts h. plan_stood s.decoder (form.0) (form.1) p (h.0) h.1 };

    ghost within = { λ s form p h. plan_within s.decoder (form.0) (form.1) p h };

    ghost offset = { planned_offset };

    ghost took = { HasPlanned };

    ghost closed = { planned_closed };

    ghost passed = { planned_passed };

    ghost counted = { planned_counted };

    fn next(&mut self, piece: &[u8], out: &mut Vec<u8>) -> Progress<()> {
        let pulled = self.decoder.next(piece);
        Progress {
            used: pulled.used,
            what: append_found(out, pulled.what),
        }
    }

    fn standing(&self) -> Standing<'_> {
        Standing {
            place: Some(self.decoder.record_place()),
            wanted: self.decoder.allowed(),
            is_cut: !self.decoder.can_finish(),
            consumed: self.decoder.offset(),
        }
    }
}

impl LastPart for PlannedReader {
    fn finish(self, _out: &mut Vec<u8>) -> Result<u64, StreamFault> {
        match self.decoder.finish() {
            Ok(()) => Ok(0),
            Err(stop) => Err(StreamFault::Stopped(stop)),
        }
    }
}
