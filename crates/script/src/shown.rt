// That reading is right, beside the definition of what a line is.
ghost use Rattle.script.specs.Shown.{ReadsBack, ReadsBackAmong};

// Reading what a command is shown as gives the command.
pub fn reads_back() -> u8
    ensures all { ReadsBack }
    ensures among { ReadsBackAmong }
{
    0
}
