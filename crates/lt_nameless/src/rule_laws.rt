//! Laws of the rules and of derivations. Each function does nothing: its contract is the law.
ghost use Rattle.std.specs.Prelude.{◌≡◌, ◌↔◌, List, [], Ok, None};
ghost use Rattle.std.specs.List.{All};
ghost use Rattle.lt_definitions.specs.Types.{Chars};
ghost use Rattle.lt_definitions.specs.Terms.{TermTree};
ghost use Rattle.lt_definitions.specs.Typing.{Signature};
ghost use Rattle.lt_definitions.specs.Rules.{Sequent, Rule, IsAlphaEqualOutcome, step};
ghost use Rattle.lt_definitions.specs.Derivations.{Derives, AreOnce, AreAmong, rule_fault, derived, IsPartOf, term_fault};
ghost use Rattle.lt_nameless.specs.Booleans.{IsSoundSignature, IsBooleanSequent, AreBooleanStatements};
ghost use Rattle.lt_nameless.specs.AlphaEqualLines.{AreAlphaEqualSequents, AreAlphaEqualStatements, AreAlphaEqualLines};
ghost use Rattle.lt_definitions.specs.Items.{Context, Item, context_of};

/// Each rule gives a sequent of boolean terms from sequents of boolean terms and boolean statements.
pub fn rules_keep_booleans()
    ensures { (sig : Signature) (named : List (Chars × TermTree)) (done : List Sequent) (line : Rule TermTree) (s : Sequent)
        → IsSoundSignature sig → AreBooleanStatements sig named → All (IsBooleanSequent sig) done
        → rule_fault sig (term_fault sig) line ≡ None → step sig named done line ≡ Ok s → IsBooleanSequent sig s }
{}

/// So does each derivation.
pub fn derivations_keep_booleans()
    ensures { (sig : Signature) (named : List (Chars × TermTree)) (done : List Sequent) (lines : List (Rule TermTree)) (ss : List Sequent)
        → IsSoundSignature sig → AreBooleanStatements sig named → All (IsBooleanSequent sig) done
        → Derives sig named done lines ss → All (IsBooleanSequent sig) ss }
{}

/// Alpha-equal statements, earlier lines and rules give alpha-equal sequents or the same reason.
pub fn step_respects_alpha()
    ensures { (sig : Signature) (named also_named : List (Chars × TermTree)) (done also_done : List Sequent)
        → (line also_line : Rule TermTree) → AreAlphaEqualStatements named also_named → AreAlphaEqualSequents done also_done
        → AreAlphaEqualLines line also_line → rule_fault sig (term_fault sig) line ≡ None
        → IsAlphaEqualOutcome (step sig named done line) (step sig also_named also_done also_line) }
{}

/// The lines of a derivation have sequents exactly where the derivation stands.
pub fn derivation_is_computed()
    ensures { (sig : Signature) (named : List (Chars × TermTree)) (lines : List (Rule TermTree)) (ss : List Sequent)
        → (derived sig named [] lines ≡ Ok ss) ↔ Derives sig named [] lines ss }
{}

/// A derivation over named statements is one over more, where no label is given twice.
pub fn derivation_over_more()
    ensures { (sig : Signature) (named more : List (Chars × TermTree)) (done : List Sequent) (lines : List (Rule TermTree)) (ss : List Sequent)
        → AreOnce more → AreAmong named more → Derives sig named done lines ss → Derives sig more done lines ss }
{}

/// It is one over more declarations too.
pub fn derivation_over_more_declarations()
    ensures { (sig more : Signature) (named : List (Chars × TermTree)) (done : List Sequent) (lines : List (Rule TermTree)) (ss : List Sequent)
        → IsPartOf sig more → Derives sig named done lines ss → Derives more named done lines ss }
{}

/// A derivation stands over all that later items add.
pub fn derivation_over_later_items()
    ensures { (ctx : Context) (items : List Item) (done : List Sequent) (lines : List (Rule TermTree)) (ss : List Sequent)
        → Derives ctx.signature ctx.statements done lines ss
        → Derives (context_of ctx items).signature (context_of ctx items).statements done lines ss }
{}
