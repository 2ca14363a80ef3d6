//! What holds of all steps of a node of bytes. Nothing runs here: callers call this function for its `ensures`.
ghost use Rattle.std.specs.Prelude.{List};
ghost use Rattle.node_names.specs.NodeName.{Name};
ghost use Rattle.node_names.specs.declared.dice.Dice.{Dice};
ghost use Rattle.wire_node.specs.Acting.{LeadsOn};
ghost use Rattle.wire_node.specs.Moving.{Engine, GoesAway, Move, MovesAll};

/// Whatever the node did, the steps that were noted then lead from its core before to its core afterwards.
pub fn noted_steps_lead_on()
    ensures moves { (old : Engine) (moves : List Move) (new : Engine)
        → MovesAll old moves new
        → LeadsOn old.machine new.machine }
    ensures downs { (old : Engine) (name : Name) (dice : Dice) (new : Engine)
        → GoesAway old name dice new
        → LeadsOn old.machine new.machine }
{}
