//! The derivations of conjunction and of existence, each over the variables that its text declares.
use crate::rows::Row;

/// `p`, `q` and `r` are boolean.
pub const TRUTHS: &str = "o:p=o:q=o:r=";

/// `and = \p q. all r. (p --> q --> r) --> r`
pub const AND: &str = "o:o:o:>>e#n#.r!i#i#p%.i#q%.r%...r%.r^.q^p^.";

/// From the definition of `and`: `and p q = all r. (p --> q --> r) --> r`.
pub const AND_UNFOLDED: [Row; 8] = [
    Row::Refl("p$"),
    Row::Cong(1, 2),
    Row::Beta("r!i#i#p%.i#q%.r%...r%.r^.q^p^p$."),
    Row::Trans(3, 4),
    Row::Refl("q$"),
    Row::Cong(5, 6),
    Row::Beta("r!i#i#p$.i#q%.r%...r%.r^.q^q$."),
    Row::Trans(7, 8),
];

/// From that: `all p q. p --> q --> and p q`.
pub const AND_INTRODUCED: [Row; 13] = [
    Row::Assume("i#p$.i#q$.r$.."),
    Row::Assume("p$"),
    Row::Mp(2, 3),
    Row::Assume("q$"),
    Row::Mp(4, 5),
    Row::ImpI("i#p$.i#q$.r$..", 6),
    Row::AllI(b'r', 7),
    Row::Sym(1),
    Row::Eqmp(9, 8),
    Row::ImpI("q$", 10),
    Row::ImpI("p$", 11),
    Row::AllI(b'q', 12),
    Row::AllI(b'p', 13),
];

/// .. and: `all p q. and p q --> p`.
pub const AND_LEFT: [Row; 10] = [
    Row::Assume("n#p$.q$."),
    Row::Eqmp(1, 2),
    Row::AllE("p$", 3),
    Row::Assume("p$"),
    Row::ImpI("q$", 5),
    Row::ImpI("p$", 6),
    Row::Mp(4, 7),
    Row::ImpI("n#p$.q$.", 8),
    Row::AllI(b'q', 9),
    Row::AllI(b'p', 10),
];

/// .. and: `all p q. and p q --> q`.
pub const AND_RIGHT: [Row; 10] = [
    Row::Assume("n#p$.q$."),
    Row::Eqmp(1, 2),
    Row::AllE("q$", 3),
    Row::Assume("q$"),
    Row::ImpI("q$", 5),
    Row::ImpI("p$", 6),
    Row::Mp(4, 7),
    Row::ImpI("n#p$.q$.", 8),
    Row::AllI(b'q', 9),
    Row::AllI(b'p', 10),
];

/// `P` is a predicate over the type `'a`, `x` an element of it, and `q` is boolean.
pub const PREDICATES: &str = "a:o:>P=a:x=o:q=";

/// `ex = \P. all q. (all x. P x --> q) --> q`
pub const EX: &str = "a:o:>o:>e#a:x#.q!i#x!i#P%x%..q%.x^..q%.q^.P^.";

/// From the definition of `ex`: `ex P = all q. (all x. P x --> q) --> q`.
pub const EX_UNFOLDED: [Row; 4] = [
    Row::Refl("P$"),
    Row::Cong(1, 2),
    Row::Beta("q!i#x!i#P%x%..q%.x^..q%.q^.P^P$."),
    Row::Trans(3, 4),
];

/// From that: `all P x. P x --> ex P`.
pub const EX_INTRODUCED: [Row; 11] = [
    Row::Assume("x!i#P$x%..q$.x^."),
    Row::AllE("x$", 2),
    Row::Assume("P$x$."),
    Row::Mp(3, 4),
    Row::ImpI("x!i#P$x%..q$.x^.", 5),
    Row::AllI(b'q', 6),
    Row::Sym(1),
    Row::Eqmp(8, 7),
    Row::ImpI("P$x$.", 9),
    Row::AllI(b'x', 10),
    Row::AllI(b'P', 11),
];

/// .. and: `all P. ex P --> P (eps P)`.
pub const EX_CHOSEN: [Row; 7] = [
    Row::Assume("a:x#P$."),
    Row::Eqmp(1, 2),
    Row::AllE("P$a:s#P$..", 3),
    Row::Select("P$"),
    Row::Mp(4, 5),
    Row::ImpI("a:x#P$.", 6),
    Row::AllI(b'P', 7),
];
