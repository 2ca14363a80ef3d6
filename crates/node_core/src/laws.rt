//! What holds of every start and step of the core. Nothing runs here: callers call these functions for their `ensures`.
ghost use Rattle.protocol.specs.Laws.{Laws};
ghost use Rattle.protocol.specs.Stimulus.{Stimulus};
ghost use Rattle.frames.specs.Content.{frame_content};
ghost use Rattle.frames.specs.Frame.{Frame};
ghost use Rattle.views.specs.Views.{AreSound};
ghost use Rattle.node_core.specs.Fits.{FitsFrames, AreFit, ComesFit};
ghost use Rattle.node_core.specs.Plum.{Plum, IsSoundPlum, plum_state};
ghost use Rattle.node_core.specs.Steps.{PlumStarts, PlumSteps, turned};

/// The starts and steps of the core keep the nine laws of a core: of identity, payloads, deliveries, views, spreading,
/// the queue, wants, asking and holding.
pub fn core_is_lawful()
    ensures { Laws plum_state frame_content IsSoundPlum PlumStarts PlumSteps }
{}

/// If what the core holds and the stimulus fit frames, then so do what the core holds afterwards and what it sends.
pub fn packets_fit_frames()
    ensures { (core : Plum) (stimulus : Stimulus Frame)
        → FitsFrames core.gossip
        → AreSound core.membership.views
        → ComesFit stimulus
        → FitsFrames (turned core.me core.membership core.gossip stimulus).gossip
        × AreFit (turned core.me core.membership core.gossip stimulus).sends }
{}
