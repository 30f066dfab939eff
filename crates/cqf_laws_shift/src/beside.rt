//! A run beside background frames.
ghost use Rattle.cqf_laws_shift.specs.Run.{BackgroundChangesNoStart, RunBesideIsRunAlone};

/// Proves that what the links carry of streams' frames beside any background frames is legal for the streams' frames alone.
pub fn run_beside_is_run_alone()
    ensures { RunBesideIsRunAlone }
{
    cqf_laws_cycle::port_is_one_cycle_late();
    cqf_laws_cycle::streams_are_sent_as_alone();
    cqf_laws_cycle::gate_gives_class();
    cqf_laws_cycle::gate_counts_cycles();
}

/// Proves that background frames change no start of a stream's frame: in two runs that differ only in background frames, the links
/// carry the same streams' frames, from the same instants on.
pub fn background_changes_no_start()
    ensures { BackgroundChangesNoStart }
{
    cqf_laws_network::legal_network_is_unique();
    run_beside_is_run_alone();
}
