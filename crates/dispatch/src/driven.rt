// Cursors that are driven by grants.
ghost use Rattle.dispatch.specs.Driven.{DrivenLaws};

// What is claimed of segment calls whose lengths are a caller's slices (specs/Driven.antt). The function does nothing; its contract
// is the claim.
pub fn driven_laws()
    ensures { DrivenLaws }
{}
