//! A worked row. The function does nothing: its contract is the row.
ghost use Rattle.std.specs.Prelude.{◌≡◌, [], Ok};
ghost use Rattle.lt_programs.specs.Programs.{theorem};
ghost use Rattle.lt_relating.specs.Parts.{walked};
ghost use Rattle.lt_relating.specs.Plans.{Relates, parts_of};
ghost use Rattle.lt_relating.specs.Rows.{row_equation, row_laws, row_lines, row_plan, row_signature, truth};

/// `all x. k x` over integers corresponds with `all x. h x` over pairs, and the parts give the
/// equation of the two.
pub fn a_quantified_row()
    ensures relates { Relates row_signature row_lines [] row_plan truth }
    ensures gives { walked row_signature row_laws row_lines [] (parts_of 0 row_plan)
        ≡ Ok (theorem row_equation) }
{}
