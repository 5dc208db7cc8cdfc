// The laws of the translation.
ghost use Rattle.std.specs.Prelude.{List, Option};
ghost use Rattle.relup_make.specs.Laws.{AtMostOneAnswer, AtMostOneScript, EachStandsOnce, InstructionTable};
ghost use Rattle.relup_make.specs.Work.{Appup};
ghost use Rattle.relup_make.specs.declared.rel_apps.RelApps.{RelApps};

/// A law: at most one script fits the work of one direction.
pub fn at_most_one_script()
    ensures { AtMostOneScript }
{}

/// A law: two releases and their appups have at most one relup, or are refused for one reason, and never both.
pub fn at_most_one_answer()
    ensures { (old new : RelApps) (appups : List (Option Appup)) → AtMostOneAnswer old new appups }
{}

/// A law: a script is object code, one point of no return, and each instruction's suspension, loads, change and resumption,
/// each once.
pub fn each_stands_once()
    ensures { EachStandsOnce }
{}

/// A law: each high-level instruction that is a group by itself becomes the low-level instructions that its row of the table
/// says.
pub fn each_instruction_has_its_row()
    ensures { InstructionTable }
{}
