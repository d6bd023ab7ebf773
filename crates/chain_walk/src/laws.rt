//! What holds of the walk of whole frames.
ghost use Rattle.std.specs.Prelude.{◌≡◌, ℕ, List, ◌++◌, length};
ghost use Rattle.packet_fields.specs.Writing.{AllFit, fields_of, over, rest_of, written};
ghost use Rattle.chain_walk.specs.Shown.{Values, AreWellFormed, fixed_of};
ghost use Rattle.chain_walk.specs.Step.{Behaviour, stepped};
ghost use Rattle.chain_walk.specs.Laws.{KeepsProfile};
ghost use Rattle.chain_walk.specs.Counting.{quiet, IsQuiet};
ghost use Rattle.chain_walk.specs.Walk.{walk, applied, frame_after, Walked, EndsWithin};
ghost use Rattle.chain_walk.specs.Packets.{Packet, fates, functions_after};
ghost use Rattle.chain_walk.specs.FieldWalk.{End.Out, walk_fields, walked_by};
ghost use Rattle.chain_walk.specs.declared.fixed.Fixed.{Fixed};

/// A whole frame walks as its fields do: the fields that come out, put into the frame, are the frame that
/// comes out.
pub fn frames_walk_as_fields<F>()
    ensures { (b : Behaviour F) (time position : ℕ) (functions : List F) (frame : List ℕ) → KeepsProfile b →
        ◌≡◌ {A = Walked F} (walk b time position functions frame) (walked_by frame (walk_fields b (fixed_of time frame) position functions (fields_of frame))) }
{}

/// Values that fit a frame, such as the frame's own fields, are well formed, and stay so after a function that keeps to
/// its profile.
pub fn values_stay_well_formed<F>()
    ensures frame { (frame : List ℕ) → AreWellFormed (fields_of frame) }
    ensures fit { (values : Values) (frame : List ℕ) → AllFit values frame → AreWellFormed values }
    ensures step { (b : Behaviour F) (fixed : Fixed) (f : F) (values : Values) → KeepsProfile b → AreWellFormed values →
        AreWellFormed (over (stepped b fixed f values).written values) }
{}

/// The fields that come out of a walk may also be put into the rest of the frame without its fields: the result is the
/// same frame.
pub fn frames_are_built_again<F>()
    ensures { (b : Behaviour F) (time position : ℕ) (functions : List F) (frame : List ℕ) (after : Values) → KeepsProfile b →
        (walk_fields b (fixed_of time frame) position functions (fields_of frame)).end ≡ Out after → written after (rest_of frame) ≡ written after frame }
{}

/// The values that a function writes may be put over a frame's own fields, and all of these into the rest of the frame
/// without its fields: the result is the frame that the function passes on.
pub fn step_is_put_together<F>()
    ensures { (b : Behaviour F) (time : ℕ) (f : F) (frame : List ℕ) → KeepsProfile b → written (over (applied b time f frame).written (fields_of frame)) (rest_of frame) ≡ frame_after b time f frame }
{}

/// Packets that walk in two lots end as in one lot, each meeting the functions as the packet before left them, and each
/// has one fate. A packet that is gone was dropped by a function of the chain.
pub fn packets_walk_in_a_row<F>()
    ensures fates { (b : Behaviour F) (functions : List F) (first later : List Packet) → fates b functions (first ++ later) ≡ fates b functions first ++ fates b (functions_after b functions first) later }
    ensures functions { (b : Behaviour F) (functions : List F) (first later : List Packet) → functions_after b functions (first ++ later) ≡ functions_after b (functions_after b functions first) later }
    ensures count { (b : Behaviour F) (functions : List F) (packets : List Packet) → length (fates b functions packets) ≡ length packets }
    ensures within { (b : Behaviour F) (time : ℕ) (functions : List F) (frame : List ℕ) → EndsWithin (length functions) (walk b time 1 functions frame).fate }
{}

/// Functions whose counting is left out keep to their profiles, and those that count don't change.
pub fn quiet_functions_keep_to_profiles<F>()
    ensures keeps { (b : Behaviour F) → KeepsProfile b → KeepsProfile (quiet b) }
    ensures still { (b : Behaviour F) → IsQuiet (quiet b) }
{}
