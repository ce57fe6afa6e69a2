// The theorems about sheet, code and box, each the contract of a function.
ghost use Rattle.reader.specs.WrittenRules.{WrittenStepIsPublished, SheetIsProgram};
ghost use Rattle.translator.specs.GotoRules.{BoxStepIsPublished};
ghost use Rattle.translator.specs.Sizes.{FlatSizeIsCounted, FlatHasAtMost320, CodeSizeIsCounted, CodeHasAtMost548, Fullest, CodeWidthIsSheetWidth, CodeIsWhole};
ghost use Rattle.translator.specs.Following.{SpelledSheetIsPlayable, StartStands, BoxStepIsWrittenOrSilent, BoxKeepsUp, BoxStepsStand, CorrectionStands, BeyondWidthIsFree, StepsAreAccounted, StandingBoxAgrees, BoxFollowsWritten};
ghost use Rattle.translator.specs.SealedSheets.{SheetIsSealed};
ghost use Rattle.translator.specs.Loading.{LoadIsUnique};

// The written step takes exactly the published LOOP and WHILE steps.
pub fn written_rules_hold() -> u8
    ensures { WrittenStepIsPublished }
{
    0
}

// Every sheet without an empty body is that of a program of the published rules.
pub fn programs_cover_sheets() -> u8
    ensures { SheetIsProgram }
{
    0
}

// The box step takes exactly the published GOTO steps.
pub fn goto_rules_hold() -> u8
    ensures { BoxStepIsPublished }
{
    0
}

// Flat statements are the statements and two more for each LOOP.
pub fn flat_size_holds() -> u8
    ensures { FlatSizeIsCounted }
{
    0
}

// A sheet within the limits has at most 320 flat statements.
pub fn flat_bound_holds() -> u8
    ensures { FlatHasAtMost320 }
{
    0
}

// Instructions are counted by assignments, LOOPs and WHILEs, with HALT.
pub fn code_size_holds() -> u8
    ensures { CodeSizeIsCounted }
{
    0
}

// A sheet within the limits has at most 548 instructions.
pub fn code_bound_holds() -> u8
    ensures { CodeHasAtMost548 }
{
    0
}

// Some sheet within the limits has 320 flat statements and 548 instructions.
pub fn bounds_are_met() -> u8
    ensures { Fullest }
{
    0
}

// N of a code is 32 and the LOOPs of its sheet.
pub fn width_holds() -> u8
    ensures { CodeWidthIsSheetWidth }
{
    0
}

// The code of a sheet can be sealed.
pub fn code_is_whole() -> u8
    ensures { CodeIsWhole }
{
    0
}

// A seal refuses no sheet within the limits.
pub fn sheet_is_sealed() -> u8
    ensures { SheetIsSealed }
{
    0
}

// A text and three memories have one answer of load.
pub fn load_is_unique() -> u8
    ensures { LoadIsUnique }
{
    0
}

// Every sheet that the reader accepts can be translated and played.
pub fn spelled_sheet_is_playable() -> u8
    ensures { SpelledSheetIsPlayable }
{
    0
}

// Before M1 a box stands for the whole sheet.
pub fn start_stands() -> u8
    ensures { StartStands }
{
    0
}

// A box step is silent or one written step, or both wait, or both have ended.
pub fn step_holds() -> u8
    ensures { BoxStepIsWrittenOrSilent }
{
    0
}

// After a few silent steps the box does what the written run does next.
pub fn box_keeps_up() -> u8
    ensures { BoxKeepsUp }
{
    0
}

// Many box steps stand for the tallied written steps.
pub fn steps_stand() -> u8
    ensures { BoxStepsStand }
{
    0
}

// A correction keeps box and written run together.
pub fn correction_stands() -> u8
    ensures { CorrectionStands }
{
    0
}

// Registers from N on are of no account.
pub fn beyond_width_is_free() -> u8
    ensures { BeyondWidthIsFree }
{
    0
}

// Box steps and what is owed meet the step formula at every moment.
pub fn account_holds() -> u8
    ensures { StepsAreAccounted }
{
    0
}

// Where a box stands for a written run, registers, end, bound and progress are as claimed.
pub fn standing_agrees() -> u8
    ensures { StandingBoxAgrees }
{
    0
}

// The box follows the written run of its sheet from any registers.
pub fn simulation_holds() -> u8
    ensures { BoxFollowsWritten }
{
    0
}
