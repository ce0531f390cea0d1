//! Laws that tie nameless terms and their rules to named ones. Each function does nothing: its contract is the law.
ghost use Rattle.std.specs.Prelude.{◌≡◌, ◌↔◌, List, [], Ok, None, map};
ghost use Rattle.std.specs.List.{All};
ghost use Rattle.lt_definitions.specs.Types.{Chars, TypeTree};
ghost use Rattle.lt_definitions.specs.Terms.{TermTree};
ghost use Rattle.lt_definitions.specs.Typing.{Signature, HasType};
ghost use Rattle.lt_definitions.specs.Rules.{Sequent, Rule, Outcome, IsAlphaEqualOutcome, step};
ghost use Rattle.lt_nameless.specs.Booleans.{IsSoundSignature};
ghost use Rattle.lt_definitions.specs.Derivations.{rule_fault, term_fault};
ghost use Rattle.lt_nameless.specs.Nameless.{Nameless, NamelessSequent, nameless, nameless_sequent, named, IsWhole};
ghost use Rattle.lt_nameless.specs.NamelessRules.{nameless_outcome, nameless_statements, nameless_rule, nameless_step, AreWholeStatements, AreWholeSequents, IsWholeSequent, IsBooleanNameless, IsBooleanNamelessSequent, nameless_fault};
ghost use Rattle.lt_definitions.specs.Rules.{Rule};

/// Two outcomes are alpha-equal exactly where their nameless forms are equal.
pub fn outcomes_are_nameless()
    ensures { (a b : Outcome) → IsAlphaEqualOutcome a b ↔ (nameless_outcome a ≡ nameless_outcome b) }
{}

/// Each nameless term whose indices have binders is the nameless form of a named one.
pub fn nameless_of_named()
    ensures { (n : Nameless) → IsWhole 0 n → nameless [] (named 0 n) ≡ n }
{}

/// A typed term has such a nameless form.
pub fn typed_is_whole()
    ensures { (sig : Signature) (t : TermTree) (ty : TypeTree) → HasType sig [] t ty → IsWhole 0 (nameless [] t) }
{}

/// What a rule gives over named terms is, without binder names, what it gives over their nameless forms.
pub fn step_is_nameless()
    ensures { (sig : Signature) (named : List (Chars × TermTree)) (done : List Sequent) (line : Rule TermTree) → rule_fault sig (term_fault sig) line ≡ None
        → nameless_outcome (step sig named done line)
        ≡ nameless_step sig (nameless_statements named) (map nameless_sequent done) (nameless_rule line) }
{}

/// The faults of a line's types and terms don't hang on binder names.
pub fn faults_are_nameless()
    ensures { (sig : Signature) (line : Rule TermTree) → rule_fault sig (term_fault sig) line ≡ rule_fault sig (nameless_fault sig) (nameless_rule line) }
{}

/// A rule keeps it that each index has its binder.
pub fn step_stays_whole()
    ensures { (sig : Signature) (named : List (Chars × Nameless)) (done : List NamelessSequent) (line : Rule Nameless) (s : NamelessSequent)
        → AreWholeStatements named → AreWholeSequents done → rule_fault sig (nameless_fault sig) line ≡ None
        → nameless_step sig named done line ≡ Ok s → IsWholeSequent s }
{}

/// Each rule gives a sequent of boolean nameless terms from sequents of boolean ones and boolean statements.
pub fn nameless_rules_keep_booleans()
    ensures { (sig : Signature) (stored : List (Chars × Nameless)) (done : List NamelessSequent) (line : Rule Nameless) (s : NamelessSequent)
        → IsSoundSignature sig → All (λ p. IsBooleanNameless sig p.1) stored → All (IsBooleanNamelessSequent sig) done
        → rule_fault sig (nameless_fault sig) line ≡ None → nameless_step sig stored done line ≡ Ok s → IsBooleanNamelessSequent sig s }
{}
