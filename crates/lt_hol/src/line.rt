//! A line of a derivation.
use lt_types::{Memory, Name, TryCopy, Ty};
use std::alloc::Global;

/// A line of a derivation: a rule of the kernel with its arguments, in the order of the rule's
/// text.
///
/// A term is named by its place among the nodes of the lines, or by its id in a store.
/// An earlier line is named by its number, from 1.
#[derive(Debug, Drop)]
pub enum Line {
    Assume(usize),
    Weaken(usize, usize),
    Refl(usize),
    Sym(usize),
    Trans(usize, usize),
    Cong(usize, usize),
    Abs(Name, Ty, usize),
    Beta(usize),
    Eta(usize),
    Eqmp(usize, usize),
    ImpI(usize, usize),
    Mp(usize, usize),
    AllI(Name, Ty, usize),
    AllE(usize, usize),
    Iff(usize, usize),
    Inst(Name, Ty, usize, usize),
    Tinst(Name, Ty, usize),
    Select(usize),
    Ccontr(usize),
    Thm(Name),
}

impl TryCopy for Line {
    fn copy(&self, alloc: Global) -> Result<Line, Memory> {
        match self {
            Line::Assume(p) => Ok(Line::Assume(*p)),
            Line::Weaken(p, i) => Ok(Line::Weaken(*p, *i)),
            Line::Refl(t) => Ok(Line::Refl(*t)),
            Line::Sym(i) => Ok(Line::Sym(*i)),
            Line::Trans(i, j) => Ok(Line::Trans(*i, *j)),
            Line::Cong(i, j) => Ok(Line::Cong(*i, *j)),
            Line::Abs(x, ty, i) => Ok(Line::Abs(x.copy(alloc)?, ty.copy(alloc)?, *i)),
            Line::Beta(t) => Ok(Line::Beta(*t)),
            Line::Eta(t) => Ok(Line::Eta(*t)),
            Line::Eqmp(i, j) => Ok(Line::Eqmp(*i, *j)),
            Line::ImpI(p, i) => Ok(Line::ImpI(*p, *i)),
            Line::Mp(i, j) => Ok(Line::Mp(*i, *j)),
            Line::AllI(x, ty, i) => Ok(Line::AllI(x.copy(alloc)?, ty.copy(alloc)?, *i)),
            Line::AllE(t, i) => Ok(Line::AllE(*t, *i)),
            Line::Iff(i, j) => Ok(Line::Iff(*i, *j)),
            Line::Inst(x, ty, t, i) => { Ok(Line::Inst(x.copy(alloc)?, ty.copy(alloc)?, *t, *i)) }
            Line::Tinst(a, ty, i) => Ok(Line::Tinst(a.copy(alloc)?, ty.copy(alloc)?, *i)),
            Line::Select(p) => Ok(Line::Select(*p)),
            Line::Ccontr(p) => Ok(Line::Ccontr(*p)),
            Line::Thm(label) => Ok(Line::Thm(label.copy(alloc)?)),
        }
    }
}
