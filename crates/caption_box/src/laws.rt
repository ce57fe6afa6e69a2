// Theorems about the definitions of specs/, each the contract of a function.
ghost use Rattle.caption_box.specs.Stars.{SheetsToTry};
ghost use Rattle.caption_box.specs.WrittenHistory.{RehearsalFollows, RehearsalAndShowAgree};

// What the sheets to try come to.
pub fn sheets_to_try() -> u8
    ensures { SheetsToTry }
{
    0
}

// After any history a rehearsal stands where its account stands.
pub fn rehearsal_follows() -> u8
    ensures { RehearsalFollows }
{
    0
}

// After the same written steps, with the same corrections, rehearsal and show agree on x0 to x31.
pub fn rehearsal_and_show_agree() -> u8
    ensures { RehearsalAndShowAgree }
{
    0
}
