// Theorems about the definitions of specs/, each the contract of a function.
ghost use Rattle.reader.specs.Claims.{VerdictIsGrammar, SheetsAreAccepted, FirstFaultIsTold, SheetIsUnique, RecordsTellSheet, RecordForEachStatement, FirstFaultIsLeftmost, AnswerIsUnique, AcceptedExactly, ExampleTexts};

// The machine that the parser follows accepts only sheets within the limits, and refuses only by the first fault.
pub fn verdict_is_grammar() -> u8
    ensures { VerdictIsGrammar }
{
    0
}

// It accepts every sheet within the limits.
pub fn sheets_are_accepted() -> u8
    ensures { SheetsAreAccepted }
{
    0
}

// It tells every first fault.
pub fn first_fault_is_told() -> u8
    ensures { FirstFaultIsTold }
{
    0
}

// Symbols spell at most one sheet.
pub fn sheet_is_unique() -> u8
    ensures { SheetIsUnique }
{
    0
}

// Sheets with the same records are the same.
pub fn records_tell_sheet() -> u8
    ensures { RecordsTellSheet }
{
    0
}

// Each statement of a text has one record and one place.
pub fn record_for_each_statement() -> u8
    ensures { RecordForEachStatement }
{
    0
}

// The first fault is the leftmost, and at its place the one with the smallest number.
pub fn first_fault_is_leftmost() -> u8
    ensures { FirstFaultIsLeftmost }
{
    0
}

// A text and its memory have one answer.
pub fn answer_is_unique() -> u8
    ensures { AnswerIsUnique }
{
    0
}

// A text is accepted exactly if it spells a sheet within the limits that fits the memory.
pub fn accepted_exactly() -> u8
    ensures { AcceptedExactly }
{
    0
}

// What some texts are answered.
pub fn example_texts() -> u8
    ensures { ExampleTexts }
{
    0
}
