//! States laws of reading types. No code calls the functions of this module: the contract of each
//! function is a proved law.

ghost use Rattle.std.specs.Prelude.{◌≡◌, ◌<◌, ◌≤◌, ◌⊎◌, ℕ, Bool, true};
ghost use Rattle.logos_type_reader.specs.Views.{TokenList, IsRestOf, count_of, Tree, depth, Fault, too_deep, IsType, NoType, Ending, Written, may_follow, FaultStage, IsAt, SameSign, IsTypeExpr, NoTypeExpr};

/// A run begins with at most one type, and has one rest after that type. A run has at most one
/// fault, and has no fault if the run begins with a type.
pub fn one_outcome()
    ensures one_type { (run rest other : TokenList) (tree different : Tree) →
        IsTypeExpr run tree rest → IsTypeExpr run different other → (tree ≡ different)
        × (rest ≡ other) }
    ensures one_fault { (run : TokenList) (fault other : Fault) → NoTypeExpr run fault →
        NoTypeExpr run other → fault ≡ other }
    ensures not_both { (run rest : TokenList) (tree : Tree) (fault : Fault) →
        IsTypeExpr run tree rest → NoTypeExpr run fault → ⊥ }
{}

/// Each run begins with a type or has a fault.
pub fn some_outcome()
    ensures { (run : TokenList) → ((tree : Tree) × (rest : TokenList)
        × IsTypeExpr run tree rest) ⊎ ((fault : Fault) × NoTypeExpr run fault) }
{}

/// Reading a run with two different limits yields one type, unless types are nested too deeply for
/// the lower limit.
pub fn levels_only_limit()
    ensures one_type { (levels others : ℕ) (plus : Bool) (run rest other : TokenList)
        (tree different : Tree) →
        IsType levels plus run tree rest → IsType others plus run different other →
        (tree ≡ different) × (rest ≡ other) }
    ensures deeper { (levels others : ℕ) (plus : Bool) (run rest : TokenList) (tree : Tree)
        (fault : Fault) →
        NoType levels plus run fault → IsType others plus run tree rest → (fault ≡ too_deep)
        × (levels < others) }
{}

/// A type can be read within a limit if and only if the depth of the type is at most the limit.
/// With a limit below this depth, the fault is that types are nested too deeply.
pub fn limit_is_depth()
    ensures within { (levels : ℕ) (plus : Bool) (run rest : TokenList) (tree : Tree) →
        IsType levels plus run tree rest → depth tree ≤ levels }
    ensures enough { (levels others : ℕ) (plus : Bool) (run rest : TokenList) (tree : Tree) →
        IsType levels plus run tree rest → depth tree ≤ others → IsType others plus run tree rest }
    ensures passed { (levels others : ℕ) (plus : Bool) (run rest : TokenList) (tree : Tree) →
        IsType levels plus run tree rest → others < depth tree → NoType others plus run too_deep }
{}

/// The tokens after a type are the run that begins with the type, without one or more tokens at its
/// start.
pub fn type_is_front()
    ensures rest { (run rest : TokenList) (tree : Tree) → IsTypeExpr run tree rest →
        IsRestOf run rest }
    ensures shorter { (run rest : TokenList) (tree : Tree) → IsTypeExpr run tree rest →
        count_of rest < count_of run }
{}

/// If a run consists of a written type and a rest that does not extend the type, reading the run
/// yields the type.
pub fn reads_written()
    ensures { (levels : ℕ) (plus : Bool) (run rest : TokenList) (tree : Tree) (ending : Ending) →
        Written levels plus run tree rest ending → may_follow ending rest ≡ true →
        IsType levels plus run tree rest }
{}

/// If reading a run yields a type, the run consists of the written type and a rest that does not
/// extend the type.
pub fn read_is_written()
    ensures { (levels : ℕ) (plus : Bool) (run rest : TokenList) (tree : Tree) →
        IsType levels plus run tree rest → (ending : Ending)
        × Written levels plus run tree rest ending × (may_follow ending rest ≡ true) }
{}

/// Each fault has a spot in its run, unless the fault is that types are nested too deeply. No run
/// that agrees with this run before the spot and in the sign at the spot begins with a written
/// type. A sign is a token, together with the next sign after joint punctuation.
pub fn fault_stage()
    ensures stage { (levels : ℕ) (plus : Bool) (run : TokenList) (fault : Fault) →
        NoType levels plus run fault → (fault ≡ too_deep) ⊎ FaultStage levels plus run fault }
    ensures no_type { (levels : ℕ) (plus : Bool) (run : TokenList) (fault : Fault)
        (stage : FaultStage levels plus run fault) (other left rest : TokenList) (tree : Tree)
        (ending : Ending) → IsAt stage.front other left → SameSign stage.left left →
        Written levels plus other tree rest ending → may_follow ending rest ≡ true → ⊥ }
{}
