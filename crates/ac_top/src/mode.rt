//! What the program does.
ghost use Rattle.std.specs.Prelude.{◌≡◌};
ghost use Rattle.ac_top.specs.Modes.{limit_of, resumes};

use ac_meaning::INPUT_LIMIT;
use ac_syntax::StringBytes;

/// How many bytes an input may have that begins with a saved state.
pub const RESUMED_LIMIT: u64 = 67_108_864;

/// What a run begins on, and what is written of its end, behind its lines.
#[derive(Drop)]
pub struct Options {
    /// The input begins with a saved state, on which the script behind it begins.
    pub resume: bool,
    /// How many elements the outermost objects have.
    pub audit: bool,
    /// The answer to this question to the outermost scope. Where it is refused, nothing is run.
    pub ask: Option<StringBytes>,
    /// The state of the outermost variables and objects.
    pub save: bool,
}

/// What is done with a script.
#[derive(Drop)]
pub enum Task {
    Run(Options),
    /// It is checked, and its canonical text written.
    Check,
}

impl Task {
    /// Whether a saved state stands before the script. Without a run none does.
    pub fn resumes(&self) -> bool
        ensures { result ≡ resumes self.now }
    {
        match self {
            Task::Run(options) => options.resume,
            Task::Check => false,
        }
    }

    /// How many bytes an input may have.
    pub fn limit(&self) -> u64
        ensures { result ≡ limit_of self.now }
    {
        if self.resumes() {
            RESUMED_LIMIT
        } else {
            INPUT_LIMIT
        }
    }
}

/// What the words ask for.
#[derive(Drop)]
pub enum Mode {
    /// Something is done with the script that is read.
    Read(Task),
    /// Nothing is read, and the generator's script of this size is run.
    Generate(u64),
}
