//! What holds of the meanings that inputs have, and what some words ask for.
ghost use Rattle.std.specs.Prelude.{◌≡◌, ℕ, List, [], ◌∷◌, false, true, Option, Some, None, codes};
ghost use Rattle.ac_meaning.specs.Execution.{Orders};
ghost use Rattle.ac_meaning.specs.Meanings.{IsMeaningBy, Meaning, ran};
ghost use Rattle.ac_top.specs.declared.mode.Mode.{Mode};
ghost use Rattle.ac_top.specs.declared.mode.Mode.TheVariants.{Read, Generate};
ghost use Rattle.ac_top.specs.declared.mode.Task.{Task};
ghost use Rattle.ac_top.specs.declared.mode.Task.TheVariants.{Run, Check};
ghost use Rattle.ac_syntax.specs.declared.script.Script.{Script};
ghost use Rattle.ac_calls.specs.declared.plains.Plain.{Plain};
ghost use Rattle.ac_top.specs.Asks.{Asking, Becomes};
ghost use Rattle.ac_top.specs.Beginnings.{Beginning, BeginsAs};
ghost use Rattle.ac_top.specs.LineExamples.{FindsAtFront, FindsFirst, PassesMiddle, PassesUnended};
ghost use Rattle.ac_top.specs.Modes.{Means, meant_by};
ghost use Rattle.ac_top.specs.Settled.{HasNoTasks, IsSettled};
ghost use Rattle.ac_top.specs.Words.{all_options, asked_by, options};

/// Each input means something, whatever is done with it: one thing only, but for the orders of blocks of tasks. Where no block of tasks
/// is run, that is what it means by one task, and where nothing is read, it is the same for all.
pub fn one_meaning()
    ensures some { (mode : Mode) (input : List ℕ) → (m : Meaning) × Means mode input m }
    ensures one { (mode : Mode) (input : List ℕ) (m other : Meaning) → IsSettled mode input →
        Means mode input m → Means mode input other → m ≡ other }
    ensures by_orders { (orders : Orders) (task : Task) (asking : Asking) (beginning : Beginning) (s : List Plain) (text : List ℕ) (m other : Meaning) →
        IsMeaningBy (meant_by orders task asking beginning s) text m → IsMeaningBy (meant_by orders task asking beginning s) text other → m ≡ other }
    ensures serial { (input : List ℕ) (m : Meaning) → HasNoTasks input → Means (Read (Run (options false None))) input m → IsMeaningBy ran input m }

    // A question's text becomes one thing at a script's outermost scope.
    ensures question { (word : Option (List ℕ)) (script : Script) → (asking : Asking) × Becomes word script asking }
    ensures one_question { (word : Option (List ℕ)) (script : Script) (asking other : Asking) →
        Becomes word script asking → Becomes word script other → asking ≡ other }

    // A script begins on a state, or an entry is the first that matches none of its outermost names.
    ensures beginning { (s : List Plain) (script : Script) → (beginning : Beginning) × BeginsAs s script beginning }
    ensures one_beginning { (s : List Plain) (script : Script) (beginning other : Beginning) →
        BeginsAs s script beginning → BeginsAs s script other → beginning ≡ other }
{}

/// Where a text has a line that is just `--script`, worked out by hand.
pub fn lines_found()
    ensures first { FindsFirst }
    ensures front { FindsAtFront }
    ensures middle { PassesMiddle }
    ensures unended { PassesUnended }
{}

/// What some words ask for, as clap takes them.
pub fn asked_words()
    ensures none { asked_by [] ≡ Some (Read (Run (options false None))) }
    ensures audit { asked_by (codes "--audit" ∷ []) ≡ Some (Read (Run (options true None))) }
    ensures check { asked_by (codes "--check" ∷ []) ≡ Some (Read Check) }
    ensures generate { asked_by (codes "--generate" ∷ codes "3" ∷ []) ≡ Some (Generate 3) }

    // `--generate` goes before `--check`, and `--audit` adds nothing to either.
    ensures before { asked_by (codes "--check" ∷ codes "--generate" ∷ codes "3" ∷ []) ≡ Some (Generate 3) }
    ensures audited_check { asked_by (codes "--check" ∷ codes "--audit" ∷ []) ≡ Some (Read Check) }
    ensures audited_size { asked_by (codes "--generate" ∷ codes "3" ∷ codes "--audit" ∷ []) ≡ Some (Generate 3) }

    // A question, alone and with `--audit`. `--check` and `--generate` go before it.
    ensures ask { asked_by (codes "--ask" ∷ codes "A" ∷ []) ≡ Some (Read (Run (options false (Some (codes "A"))))) }
    ensures audited_ask { asked_by (codes "--audit" ∷ codes "--ask" ∷ codes "A" ∷ []) ≡ Some (Read (Run (options true (Some (codes "A"))))) }
    ensures checked_ask { asked_by (codes "--ask" ∷ codes "A" ∷ codes "--check" ∷ []) ≡ Some (Read Check) }
    ensures asked_size { asked_by (codes "--ask" ∷ codes "A" ∷ codes "--generate" ∷ codes "3" ∷ []) ≡ Some (Generate 3) }
    ensures joined_ask { asked_by (codes "--ask=A" ∷ []) ≡ Some (Read (Run (options false (Some (codes "A"))))) }
    ensures empty_ask { asked_by (codes "--ask" ∷ [] ∷ []) ≡ Some (Read (Run (options false (Some [])))) }

    // A state that is resumed and one that is saved, each alone and with other options. `--check` and `--generate` go before both.
    ensures save { asked_by (codes "--save" ∷ []) ≡ Some (Read (Run (all_options false false None true))) }
    ensures resume { asked_by (codes "--resume" ∷ []) ≡ Some (Read (Run (all_options true false None false))) }
    ensures resume_all { asked_by (codes "--save" ∷ codes "--ask=A" ∷ codes "--resume" ∷ codes "--audit" ∷ [])
        ≡ Some (Read (Run (all_options true true (Some (codes "A")) true))) }
    ensures checked_resume { asked_by (codes "--resume" ∷ codes "--save" ∷ codes "--check" ∷ []) ≡ Some (Read Check) }
    ensures saved_size { asked_by (codes "--resume" ∷ codes "--save" ∷ codes "--generate=3" ∷ []) ≡ Some (Generate 3) }

    // How a number may be spelled.
    ensures joined { asked_by (codes "--generate=3" ∷ []) ≡ Some (Generate 3) }
    ensures plus { asked_by (codes "--generate" ∷ codes "+3" ∷ []) ≡ Some (Generate 3) }
    ensures zeros { asked_by (codes "--generate" ∷ codes "003" ∷ []) ≡ Some (Generate 3) }
    ensures most { asked_by (codes "--generate" ∷ codes "200000" ∷ []) ≡ Some (Generate 200000) }
    ensures trailing { asked_by (codes "--" ∷ []) ≡ Some (Read (Run (options false None))) }

    // What isn't accepted.
    ensures too_small { asked_by (codes "--generate" ∷ codes "0" ∷ []) ≡ None }
    ensures too_large { asked_by (codes "--generate" ∷ codes "200001" ∷ []) ≡ None }
    ensures no_number { asked_by (codes "--generate" ∷ codes "x" ∷ []) ≡ None }
    ensures negative { asked_by (codes "--generate" ∷ codes "-3" ∷ []) ≡ None }
    ensures alone { asked_by (codes "--generate" ∷ []) ≡ None }
    ensures asked_nothing { asked_by (codes "--ask" ∷ []) ≡ None }
    ensures asked_twice { asked_by (codes "--ask" ∷ codes "A" ∷ codes "--ask" ∷ codes "B" ∷ []) ≡ None }
    ensures saved_twice { asked_by (codes "--save" ∷ codes "--save" ∷ []) ≡ None }
    ensures valued_resume { asked_by (codes "--resume=1" ∷ []) ≡ None }
    ensures twice { asked_by (codes "--check" ∷ codes "--check" ∷ []) ≡ None }
    ensures valued { asked_by (codes "--check=true" ∷ []) ≡ None }
    ensures help { asked_by (codes "--help" ∷ []) ≡ None }
    ensures other { asked_by (codes "more" ∷ []) ≡ None }
{}
