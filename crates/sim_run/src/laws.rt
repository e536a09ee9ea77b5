//! A law of transcripts: a call does nothing, and tells the caller's proof what it ensures.

ghost use Rattle.sim_run.specs.Laws.{TranscriptExists, TranscriptOnce};

use switch_net::laws::circuits_run;

/// A network that has the pads of a stimulus has a transcript along it from any values, exactly one.
pub fn transcripts_exist()
    ensures exist { TranscriptExists }
    ensures once { TranscriptOnce }
{
    circuits_run();
}
