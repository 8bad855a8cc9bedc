//! What holds of questions.
ghost use Rattle.std.specs.Prelude.{◌≡◌, ◌*◌, ◌+◌, ◌≤◌, ◌⊎◌, ℕ, List, [], length};
ghost use Rattle.ac_syntax.specs.declared.refusal.RefusalKind.{RefusalKind as Kind};
ghost use Rattle.ac_rules.specs.Scopes.{Scope};
ghost use Rattle.ac_aggregate.specs.Refusals.{IsRefused, IsTaken};
ghost use Rattle.ac_syntax.specs.declared.token.Token.{Token as Read};
ghost use Rattle.ac_aggregate.specs.Asked.{Asked};
ghost use Rattle.ac_aggregate.specs.Grammar.{Asks, Derives, questions};
ghost use Rattle.ac_aggregate.specs.Outcomes.{got};
ghost use Rattle.ac_aggregate.specs.Reading.{read_by, question};
ghost use Rattle.ac_aggregate.specs.Examples.{Doubles, Sums, TakesAway, ComparesTexts, ComparesIntegers, EvaluatesSecond, EvaluatesFirst};
ghost use Rattle.ac_aggregate.specs.Examples.{PassesOver, GivesTooMuch, LeastOfNone, Nests, NestsByGenerator, FoldsPast, MultipliesPast};
ghost use Rattle.ac_aggregate.specs.RefusalExamples.{TakesLoosely, TakesReduction, TakesNested, RefusesDeep, RefusesNothing, RefusesName, RefusesMinus};
ghost use Rattle.ac_aggregate.specs.RefusalExamples.{RefusesWord, RefusesReserved, RefusesMalformed, RefusesLength, SyntaxOverLimit, SyntaxOverName, SyntaxOverType};
ghost use Rattle.ac_aggregate.specs.RefusalExamples.{SyntaxOverTwice, LimitOverName, LimitOverType, LimitOverTwice, NameOverType, NameOverTwice, TypeOverTwice};
ghost use Rattle.ac_aggregate.specs.RefusalExamples.{RefusesTwice, RefusesTwiceInside, RefusesQueue, RefusesUnlike};

/// What questions come to, worked out by hand.
pub fn examples()
    ensures doubles { Doubles }
    ensures sums { Sums }
    ensures takes_away { TakesAway }
    ensures compares_texts { ComparesTexts }
    ensures compares_integers { ComparesIntegers }
    ensures evaluates_second { EvaluatesSecond }
    ensures evaluates_first { EvaluatesFirst }
    ensures passes_over { PassesOver }
    ensures gives_too_much { GivesTooMuch }
    ensures least_of_none { LeastOfNone }
    ensures nests { Nests }
    ensures nests_by_generator { NestsByGenerator }
    ensures folds_past { FoldsPast }
    ensures multiplies_past { MultipliesPast }
{}

/// A text asks at most one question, and each is refused for one reason, or taken.
pub fn one_question()
    ensures one { (word : List ℕ) (q other : Asked) → Asks q word → Asks other word → q ≡ other }
    ensures each { (scope : Scope) (word : List ℕ) → ((kind : Kind) × IsRefused scope word kind) ⊎ ((q : Asked) × IsTaken scope word q) }
    ensures not_both { (scope : Scope) (word : List ℕ) (q : Asked) (kind : Kind) → IsTaken scope word q → IsRefused scope word kind → ⊥ }
    ensures one_reason { (scope : Scope) (word : List ℕ) (kind other : Kind) → IsRefused scope word kind → IsRefused scope word other → kind ≡ other }
{}

/// What is read to the end of its tokens is a question, and each question is read in four steps a token.
pub fn readings()
    ensures sound { (n : ℕ) (q : Asked) (ts : List Read) → read_by n question ts ≡ got q [] → Derives questions q ts }
    ensures complete { (q : Asked) (ts : List Read) (n : ℕ) → Derives questions q ts → 4 * length ts + 1 ≤ n → read_by n question ts ≡ got q [] }
{}

/// Texts that are questions, worked out by hand.
pub fn question_examples()
    ensures takes_loosely { TakesLoosely }
    ensures takes_reduction { TakesReduction }
    ensures takes_nested { TakesNested }
{}

/// Texts that are refused, each for the first of its faults.
pub fn refusal_examples()
    ensures refuses_deep { RefusesDeep }
    ensures refuses_nothing { RefusesNothing }
    ensures refuses_name { RefusesName }
    ensures refuses_minus { RefusesMinus }
    ensures refuses_word { RefusesWord }
    ensures refuses_reserved { RefusesReserved }
    ensures refuses_malformed { RefusesMalformed }
    ensures refuses_length { RefusesLength }
    ensures syntax_over_limit { SyntaxOverLimit }
    ensures syntax_over_name { SyntaxOverName }
    ensures syntax_over_type { SyntaxOverType }
    ensures syntax_over_twice { SyntaxOverTwice }
    ensures limit_over_name { LimitOverName }
    ensures limit_over_type { LimitOverType }
    ensures limit_over_twice { LimitOverTwice }
    ensures name_over_type { NameOverType }
    ensures name_over_twice { NameOverTwice }
    ensures type_over_twice { TypeOverTwice }
    ensures refuses_twice { RefusesTwice }
    ensures refuses_twice_inside { RefusesTwiceInside }
    ensures refuses_queue { RefusesQueue }
    ensures refuses_unlike { RefusesUnlike }
{}
