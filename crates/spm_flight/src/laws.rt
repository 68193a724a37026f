//! Laws of the definitions: each function here has one as its contract, and nothing calls them.
ghost use Rattle.std.specs.Prelude.{[], ◌++◌, List};
ghost use Rattle.spm_api.specs.declared.base.Base.{Base};
ghost use Rattle.spm_cache.specs.Passing.{Passing};
ghost use Rattle.spm_cache_core.specs.declared.event.Event.{Event};
ghost use Rattle.spm_flight.specs.Work.{Does};
ghost use Rattle.spm_outside.specs.Link.{LinkState};

/// Who has done nothing has made no event and no call; and what an actor does in two steps, one after the other, it does in one.
pub fn work_goes_on()
    ensures rests { (base : Base) (link : LinkState) (pass : Passing) → Does base link link pass pass [] }
    ensures goes_on { (base : Base) (first second third : LinkState) (early middle late : Passing) (added more : List Event)
        → Does base first second early middle added → Does base second third middle late more → Does base first third early late (added ++ more) }
{}
