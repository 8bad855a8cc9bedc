//! What holds of outermost names as they were declared, and when they have what a state has.
ghost use Rattle.ac_plains.specs.Laws.{DeclaresFresh, ResumesFrom};

/// What a script's outermost declarations make can be resumed on, and statements can begin where it was.
pub fn states_resume()
    ensures declared { DeclaresFresh }
    ensures resumed { ResumesFrom }
{}
