//! Laws of maps. Each is the contract of a function that does nothing.

ghost use Rattle.rescue_map.specs.Laws.{ReadsBack, RescuesMarked, RunsAlternate};

/// What is written of a mask reads as the longest runs of its sectors.
pub fn what_is_written_reads_back()
    ensures { ReadsBack }
{}

/// These runs rescue just the bytes of the sectors in the mask.
pub fn runs_rescue_the_marked_sectors()
    ensures { RescuesMarked }
{}

/// No two neighbours of them have one mark, so each is as long as it can be.
pub fn runs_alternate()
    ensures { RunsAlternate }
{}
