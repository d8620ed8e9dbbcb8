// What frames promise over whole runs, for all pairs and frames there can be. Each call stands for what its contract says.
ghost use Rattle.frames.specs.Frame.{ReadsBack, ThreeFramesDecide};
ghost use Rattle.frames.specs.Places.{PlacesUndoEachOther};

/// Frames that no damage befell read back as the pairs that were put, and what is heard of pair N hangs on frames N to N + 2
/// alone. What lies at a place and where a bit lies undo each other.
pub fn frames_read_back()
    ensures back { ReadsBack }
    ensures alone { ThreeFramesDecide }
    ensures places { PlacesUndoEachOther }
{}
