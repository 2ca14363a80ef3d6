//! Laws that hold for every stream. Nothing runs here: these functions are called for what they ensure.
ghost use Rattle.std.specs.Prelude.{◌≡◌, ◌++◌, [], List, ℕ};
ghost use Rattle.frames.specs.Cutting.{Begins, Call, Calls, IsDone, fed_by, given_by};

/// Ensures that the frames that a cutter returns do not depend on how its stream is cut into pieces. In the list of
/// calls, `Cutter::feed` is a `fed`, and `Cutter::next`, if it returns a frame, a `gave`. `left` is the cutter's value.
pub fn cuttings_agree()
    // The stream fed so far is the frames given so far, followed by the bytes left.
    ensures given { (calls : List Call) (left : List ℕ)
        → Calls calls [] left
        → Begins (given_by calls) (fed_by calls) left }
    // Two cutters that were fed the same stream and have no more frames to give gave the same frames, and the same
    // bytes are left.
    ensures same { (calls others : List Call) (left rest : List ℕ) → Calls calls [] left → Calls others [] rest
        → fed_by calls ≡ fed_by others
        → IsDone left
        → IsDone rest
        → (given_by calls ≡ given_by others) × (left ≡ rest) }
{}
