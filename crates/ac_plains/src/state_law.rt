//! What holds of the states that scripts leave.
ghost use Rattle.ac_plains.specs.ValidStates.{EndsDeclared, SavesValid};

/// What the outermost names of a script hold at its end is a valid state.
pub fn saved_states_valid()
    ensures valid { SavesValid }
    ensures declared { EndsDeclared }
{}
